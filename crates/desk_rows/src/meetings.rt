// Two workers and a test beside them, of which each waits until all have begun.

use par_tables::Gate;
use std::sync::atomic::{AtomicU64, Ordering};
use std::thread;
use std::time::{Clock, Duration};

/// A mark for each of two workers and one for the test, and another for who gave up the wait.
#[derive(Drop)]
pub(crate) struct Meeting<'a, R> {
    clock: &'a R,
    first: AtomicU64,
    second: AtomicU64,
    own: AtomicU64,
    gave_up: AtomicU64,
}

fn is_set(mark: &AtomicU64) -> bool {
    mark.load(Ordering::SeqCst) == 1
}

impl<'a, R: Clock> Meeting<'a, R> {
    /// A meeting to which nobody has come.
    pub(crate) fn new(clock: &'a R) -> Meeting<'a, R> {
        Meeting {
            clock,
            first: AtomicU64::new(0),
            second: AtomicU64::new(0),
            own: AtomicU64::new(0),
            gave_up: AtomicU64::new(0),
        }
    }

    // The mark of a worker, by its number.
    fn mark_of(&self, number: usize) -> &AtomicU64 {
        match number {
            0 => &self.first,
            _ => &self.second,
        }
    }

    fn are_set(&self) -> bool {
        is_set(&self.first) && is_set(&self.second) && is_set(&self.own)
    }

    // Sets a mark, and waits for the others, for 200000 turns at most.
    fn meet(&self, mark: &AtomicU64) {
        mark.store(1, Ordering::SeqCst);
        for _turn in 0..200000u32 {
            if self.are_set() {
                return;
            }
            thread::sleep(self.clock, Duration::from_micros(1));
        }
        self.gave_up.store(1, Ordering::SeqCst);
    }

    /// Waits, beside the workers, until each of them has begun.
    pub(crate) fn meet_workers(&self) {
        self.meet(&self.own);
    }

    /// Whether nobody gave up the wait.
    pub(crate) fn is_complete(&self) -> bool {
        !is_set(&self.gave_up)
    }
}

impl<R: Clock> Gate for Meeting<'_, R> {
    fn begin(&self, piece: usize, _tables: usize) {
        self.meet(self.mark_of(piece));
    }
}
