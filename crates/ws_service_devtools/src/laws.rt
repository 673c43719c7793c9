//! What the host reads. The function does nothing: its contract is the law, for every command.

ghost use Rattle.ws_service_devtools.specs.Laws.{ReadsAlike};

/// A command without the flag is read as the same command, whose flag is absent.
#[tactic(auto, using(crate::proofs::LawLemmas::reads_alike))]
pub fn reads_alike()
    ensures { ReadsAlike }
{}
