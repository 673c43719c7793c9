//! What the lock keeps between any two steps.
use crate::standing::Standing;
use crate::view::View;
use atomic_table::TableRule;
use std::marker::PhantomData;

/// One history, of which each pass has seen a beginning.
pub struct OneHistory<S, E, B> {
    marker: PhantomData<(S, E, B)>,
}

impl<S: Standing<E, B>, E, B> TableRule<Option<S>, View<E>, u64> for OneHistory<S, E, B> {
    ghost use Rattle.history_lock.specs.Views.{opening};
    ghost use Rattle.history_lock.specs.Rule.{IsOneHistory};

    ghost holds = { λ n s. IsOneHistory S.stands n s };

    ghost first = { opening };
}
