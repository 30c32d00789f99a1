// How ports are asked to end.

use std::sync::atomic::{AtomicBool, Ordering};

/// Whether ports are asked to end, which several may see.
#[derive(Drop)]
pub struct EndSign {
    set: AtomicBool,
    stays_bound: bool,
}

impl EndSign {
    /// Makes a sign that doesn't ask ports to end. Those that are asked let their listener go, so that a later connection
    /// is rejected; if the listener stays bound, it waits until the ports are gone.
    pub fn new(stays_bound: bool) -> EndSign {
        EndSign {
            set: AtomicBool::new(false),
            stays_bound,
        }
    }

    /// Asks ports to end.
    pub fn set(&self) {
        self.set.store(true, Ordering::SeqCst);
    }

    // Whether ports are asked to end.
    pub(crate) fn is_set(&self) -> bool {
        self.set.load(Ordering::SeqCst)
    }

    // Whether a port that is asked to end lets its listener go.
    pub(crate) fn lets_go(&self) -> bool {
        !self.stays_bound
    }
}
