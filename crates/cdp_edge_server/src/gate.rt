//! A gate is closed until it is opened, from any thread, and then open for good.

use std::alloc::{AllocError, Global};
use std::sync::Arc;
use std::sync::atomic::{AtomicBool, Ordering};

/// What a link in memory may wait for.
#[derive(Drop)]
pub struct Gate {
    open: Arc<AtomicBool, Global>,
}

impl Gate {
    /// One closed gate, twice.
    pub fn pair(alloc: Global) -> Result<(Gate, Gate), AllocError> {
        let open = Arc::new(alloc, AtomicBool::new(false))?;
        let again = Arc::try_clone(&open)?;
        Ok((Gate { open }, Gate { open: again }))
    }

    /// Opens it.
    pub(crate) fn open(&self) {
        self.open.store(true, Ordering::SeqCst);
    }

    /// Whether it is open.
    pub(crate) fn is_open(&self) -> bool {
        self.open.load(Ordering::SeqCst)
    }
}
