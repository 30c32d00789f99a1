//! The histories of `omaha`: what a server with one begins with, and the command `history`.
//!
//! `open_beginning` makes the service of a profile, or opens a history and makes the service that its records lead to,
//! by `restarts`; a history without records begins with the profile. `ServerRecords` are those of such a server.
//! `print_history` lists the records of a history, prints the profile that they lead to, or replaces them by it. Read
//! `specs/Histories.antt`. `ReportingStores` prints why a script or a raise isn't kept.
//!
//! `restarts` has what records lead to: the edition and the mirrors that a server begins with. `followers` keeps a
//! server up to date with the other servers of its history.
//!
//! It serves nothing, and knows no files of histories: those are of a `Stores` of `kept_records`.

#![tactic(auto)]

mod followers;
mod histories;
mod reading_histories;
mod reporting_stores;
pub mod restarts;
mod server_records;

pub use crate::followers::{Found, follow, look};
pub use crate::histories::open_beginning;
pub use crate::reading_histories::print_history;
pub use crate::reporting_stores::{ReportedRecords, ReportingStores};
pub use crate::restarts::{
    RestoreError, Restored, count_editions, export, list, records_until, restore,
};
pub use crate::server_records::ServerRecords;
