//! Reading and writing whole, with contracts that also say what a failure leaves, and traces of what has happened.
//!
//! `ReadWhole` reads a reader to its end, up to a maximum; `WriteWhole` writes all of some bytes; `Disk` reads a
//! regular file. Every reader, writer and runtime of std has them. Read `specs/Streams.antt` for what is known of a
//! stream.
//!
//! A `Trace` is a list of values as they were when each was recorded, which contracts alone see. It keeps none of them,
//! takes no memory and has no limit, so a device says with it what it has carried, whatever that is and whether or not
//! memory is left: read `specs/Traces.antt`. No program can read a trace.
//!
//! `Shown` prints a string from outside, as a path or an address, percent-encoded if it has control characters, which
//! would break a line of a terminal or change its state. Read `specs/Strings.antt`.
//!
//! It does not buffer, and flushes nothing.

#![tactic(auto)]

mod disk;
mod reading;
mod shown;
mod trace;
mod writing;

pub use crate::disk::Disk;
pub use crate::reading::{ReadFailure, ReadWhole};
pub use crate::shown::Shown;
pub use crate::trace::Trace;
pub use crate::writing::{WriteWhole, offer};
