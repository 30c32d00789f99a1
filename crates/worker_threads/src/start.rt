//! Where threads wait until each job has one.

use std::sync::{Condvar, Mutex, Wait};

#[derive(Clone, Copy, Drop)]
enum State {
    Closed,
    Open,
    Shut,
}

/// Where threads wait until each job has one.
#[derive(Drop)]
pub(crate) struct Start {
    state: Mutex<State>,
    changed: Condvar,
}

impl Start {
    pub(crate) fn new() -> Start {
        Start {
            state: Mutex::new(State::Closed),
            changed: Condvar::new(),
        }
    }

    /// Waits until the jobs may begin, or may not; returns whether they may.
    pub(crate) fn wait<R: Wait>(&self, rt: &R) -> bool {
        let state = self
            .changed
            .wait_while(rt, self.state.lock(rt), |state| *state == State::Closed);
        *state == State::Open
    }

    /// Lets the jobs begin, unless they may not; returns whether they may.
    pub(crate) fn open<R: Wait>(&self, rt: &R) -> bool {
        let mut state = self.state.lock(rt);
        let opens = *state == State::Closed;
        if opens {
            *state = State::Open;
        }
        self.changed.notify_all();
        opens
    }

    /// Lets no job begin.
    pub(crate) fn shut<R: Wait>(&self, rt: &R) {
        *self.state.lock(rt) = State::Shut;
        self.changed.notify_all();
    }
}
