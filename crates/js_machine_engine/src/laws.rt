//! The laws of what steps print. Each function does nothing: its contract is the law, for every run.

ghost use Rattle.js_heap.specs.declared.value.Addr.{Addr};
ghost use Rattle.js_semantics.specs.Functions.{Program};
ghost use Rattle.js_semantics.specs.Run.{Run, printed_of, step_in};
ghost use Rattle.js_machine_engine.specs.Prints.{PrintsOneText, values_printed};

/// A step that prints values puts one text behind those that were printed before. Every other step leaves them as they are.
pub fn values_come_with_one_text()
    ensures { (p : Program) (scope : Addr) (r : Run) → PrintsOneText (values_printed p scope r) (printed_of r) (printed_of (step_in p scope r)) }
{}
