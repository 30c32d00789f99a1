//! What a server restarts from: the records of a history, and what they lead to.
//!
//! `restore` makes the edition and the mirrors of records: the profile's, with the batch of each script and the budget of
//! each raise. Read `specs/Restarting.antt`. `laws::restarts` states that the records of an operator's desk lead to just
//! what it published: read `specs/Laws.antt`. `list` writes records as lines, `records_until` has those up to an edition,
//! and `export` writes the profile that records lead to: read `specs/Exporting.antt`.
//!
//! It opens no file, and publishes nothing.

mod exporting;
mod fault;
pub mod laws;
mod listing;
mod prefixes;
mod restoring;

pub use crate::restarts::exporting::export;
pub use crate::restarts::fault::RestoreError;
pub use crate::restarts::listing::list;
pub use crate::restarts::prefixes::{count_editions, records_until};
pub use crate::restarts::restoring::{Restored, restore};
