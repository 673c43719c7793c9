//! What a state stands for.
ghost use Rattle.std.specs.Prelude.{ℕ, List};

/// A state that stands for histories of `E`, each entry with its maker's number. `B` names what the state began with.
pub trait Standing<E, B>: Drop {
    ghost stands: { Self → List (ℕ × E) → Type 0 };
}
