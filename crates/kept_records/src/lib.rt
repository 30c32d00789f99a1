//! What a server keeps of what its operator published: numbered records, in order.
//!
//! A `Record` has a `Kind` and bytes: a profile, a script, or a raise of a budget. `Records` is where they are kept. A
//! handle knows the first ones: `append` adds one after those, and `next` reads the one after those, which another handle
//! may have added. Contracts see the known records as `kept`, and the number of the first one as `first`: read
//! `specs/Keeping.antt`. `compact` replaces all records by one. A call fails with an `AppendFault` or a `ReadFault`, most
//! with a `Cause`, which may have the first `Words` of a message: read `specs/Messages.antt`. `Stores` opens the records
//! at a path.
//!
//! `MemoryRecords` keeps records in memory, for tests and for a program that keeps none. A test says what happens at each
//! call by a list of `Turn`s: read `specs/Memories.antt`.
//!
//! It doesn't know what a profile or a script says, nor whether a record after another makes sense.

#![tactic(auto)]

mod checksum;
mod fault;
mod limits;
mod memory;
mod record;
mod records;
mod storing;
mod turn;
mod unkept;
mod words;

pub use crate::checksum::{NO_CHECKSUM, checksum_of};
pub use crate::fault::{AppendFault, Cause, OpenFault, ReadFault, Unreached};
pub use crate::limits::{DEFAULT_LIMIT, MAX_RECORDS, has_room};
pub use crate::memory::MemoryRecords;
pub use crate::record::{Kind, Record};
pub use crate::records::{Records, Stores};
pub use crate::turn::Turn;
pub use crate::unkept::Unkept;
pub use crate::words::{MAX_WORDS, Words};
