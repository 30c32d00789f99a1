use std::alloc::Global;
use std::sync::atomic::{AtomicBool, Ordering};
use std::sync::{Arc, Wait};
use std::thread::Parker;

/// What the senders of a log wake its writer by, and by which it learns that there are no more lines.
#[derive(Drop)]
pub struct Signal {
    parker: Parker,
    is_over: AtomicBool,
}

impl Signal {
    /// Makes a signal, of a log to which lines may be sent.
    pub fn new() -> Signal {
        Signal {
            parker: Parker::new(),
            is_over: AtomicBool::new(false),
        }
    }

    /// Says that no more lines will be sent: the writer writes those that were sent, and ends.
    pub fn end(&self) {
        self.is_over.store(true, Ordering::SeqCst);
        self.parker.unpark();
    }

    // Wakes the writer.
    pub(crate) fn wake(&self) {
        self.parker.unpark();
    }

    // Whether no more lines will be sent.
    pub(crate) fn is_over(&self) -> bool {
        self.is_over.load(Ordering::SeqCst)
    }

    // Sleeps until a line is sent, or there are no more.
    pub(crate) fn wait<R: Wait>(&self, rt: &R) {
        self.parker.park(rt);
    }
}

/// Says that no more lines will be sent, when it is dropped.
pub(crate) struct LastLine(pub(crate) Arc<Signal, Global>);

impl Drop for LastLine {
    fn drop(self) {
        let LastLine(signal) = self;
        signal.end();
    }
}
