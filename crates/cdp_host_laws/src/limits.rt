//! The laws of limits: each number is the one that the documents give (`docs/PROTOCOL.md`, `docs/LANGUAGE.md`,
//! `docs/COMMANDS.md`). Each function does nothing: its contract is the law.

ghost use Rattle.std.specs.Prelude.{◌≡◌, ◌^◌, ◌||◌, List, is_some, length, nat_le};
ghost use Rattle.breakpoints.specs.Breakpoints.{most as most_breakpoints};
ghost use Rattle.cdp_journal.specs.Lines.{most_told};
ghost use Rattle.cdp_session_messages.specs.Outboxes.{most_bytes, most_texts};
ghost use Rattle.debug_host_options.specs.Given.{value_of};
ghost use Rattle.debug_host_options.specs.Parts.{Part};
ghost use Rattle.debug_host_options.specs.Requests.{number_or, port_of, sessions_of};
ghost use Rattle.debug_host_options.specs.declared.command.OptionName.TheVariants.{Port, Sessions};
ghost use Rattle.js_heap.specs.World.{base_room, scratch_room};
ghost use Rattle.js_parser.specs.declared.limits.TheConstants.{MOST_TOKENS, MOST_UNITS};
ghost use Rattle.js_parser_descent.specs.declared.limits.TheConstants.{MOST_HEIGHT};
ghost use Rattle.js_semantics.specs.Evaluation.{budget};
ghost use Rattle.js_semantics.specs.Functions.{frame_limit};
ghost use Rattle.object_groups.specs.Handles.{HeldHandles, fault_of};
ghost use Rattle.remote_objects.specs.ByValue.{most_deep, most_met};

/// What a session may have: texts that wait and their bytes, objects (at a time, and in all), breakpoints, the steps of
/// an evaluation, the cells and the units of text that its evaluations make; how deep a value that is asked for by
/// value may be, and how many may be met in it.
pub fn the_limits_of_a_session_are_those_of_the_documents()
    ensures texts { most_texts ≡ 65536 }
    ensures bytes { most_bytes ≡ 67108864 }
    ensures objects { (h : HeldHandles)
        → is_some (fault_of h) ≡ (nat_le 100000 (length h.held) || nat_le (2 ^ 62) h.made) }
    ensures breakpoints { most_breakpoints ≡ 1000 }
    ensures steps { budget ≡ 100000 }
    ensures cells { scratch_room.cells ≡ 65536 }
    ensures units { scratch_room.units ≡ 1048576 }
    ensures depth { most_deep ≡ 100 }
    ensures values { most_met ≡ 100000 }
{}

/// What a program may have: cells and the units of their text, active calls, and the code units, the tokens and the
/// depth of a source.
pub fn the_limits_of_a_program_are_those_of_the_documents()
    ensures cells { base_room.cells ≡ 1048576 }
    ensures text { base_room.units ≡ 67108864 }
    ensures calls { frame_limit ≡ 1000 }
    ensures units { MOST_UNITS ≡ 1048576 }
    ensures tokens { MOST_TOKENS ≡ 200000 }
    ensures depth { MOST_HEIGHT ≡ 200 }
{}

/// What words may ask for: the clients of a server at once, 4 where no number is given, and at most 16; its port, 9229
/// where none is given; and the bytes of a text that a journal tells.
pub fn the_limits_of_words_are_those_of_the_documents()
    ensures clients { (parts : List Part) → sessions_of parts ≡ number_or 4 16 (value_of Sessions parts) }
    ensures port { (parts : List Part) → port_of parts ≡ number_or 9229 65535 (value_of Port parts) }
    ensures told { most_told ≡ 1048576 }
{}
