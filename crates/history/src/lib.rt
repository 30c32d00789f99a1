//! The records of a server in a database of SQLite, each committed before `append` returns.
//!
//! A `History` is over any store of the crate `sqlite`: a file, memory, or a file on a disk that fails. `create` makes one
//! in an empty database, `open_over` takes the one that a database holds, and `open_at` does either with the file at a
//! path. `HistoryFiles` opens a `FileHistory` for whoever knows no database. It has one table, `record`, with the columns
//! `number`, `kind` and `bytes`, which any SQLite reads. Read `specs/Tables.antt`, then `specs/Holdings.antt`: what a
//! database holds, and what a crash leaves of it.
//!
//! After a failure that may have closed the database it asks the disk for nothing more, and each call fails as
//! `Closed`. It doesn't know what a profile or a script says.

#![tactic(auto)]

mod appending;
mod causes;
mod checksums;
mod history;
pub mod laws;
mod lone_files;
mod marks;
mod opening;
mod parting;
mod reading;
mod refilling;
mod schema;
mod sealing;
mod statements;
mod stores;

pub use crate::history::History;
pub use crate::stores::{FileHistory, HistoryFiles, open_at};
