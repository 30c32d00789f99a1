//! The lines of a log, on their way to a thread that writes them.
//!
//! `open_log` makes a `Log`: a `LineSender` for each of several threads, and a `LogWriter` for one more. A sender waits for
//! nobody: a line goes into its ring of bytes whole, or is counted as lost, and the next line that goes is preceded by one
//! that says how many were lost. A sender that is finished sends that one alone. The writer writes to a `Page` what has
//! come from all senders, and sleeps until the `Signal` that they share wakes it. `Writing::open` opens a log with its page,
//! and `start` gives it a thread of its own. Once senders have ended, the thread's `finish` writes what is left of them, and
//! gives the page back: then the log is whole. Read `specs/Queues.antt`.
//!
//! It doesn't know what a line says, and promises no order between the lines of two senders.

pub mod laws;
mod notes;
mod opening;
mod page;
mod rings;
mod sender;
mod signal;
mod task;
mod thread;
mod writer;
mod writing;

pub use crate::queues::opening::{Log, open_log};
pub use crate::queues::page::Page;
pub use crate::queues::sender::{EndedSender, LineSender};
pub use crate::queues::signal::Signal;
pub use crate::queues::thread::WriterThread;
pub use crate::queues::writer::LogWriter;
pub use crate::queues::writing::Writing;
