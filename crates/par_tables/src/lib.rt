//! The certified tables of a catalogue, one for each track with a target.
//!
//! `tables` makes them in the order of apps, cohorts, lanes and downgrades. Read `specs/Tracks.antt` for
//! that order, `specs/Tables.antt` for the list, and `specs/Places.antt` for how a table is found by its key.
//! There is one such list, by `laws`.
//!
//! `build` makes the same list by several threads, each of which has a piece of it: read `specs/Pieces.antt`.
//! `build_for` makes the tables of some cohorts, and `merged` adds those of the others, kept of the content before:
//! read `specs/Marks.antt`, and `specs/Sources.antt` for what a table depends on. `tables_for` is `build_for` by one
//! thread. `tables_of` makes the tables of any tracks that have a target, also of clients with a pin.
//!
//! It does not find prices, which `solver` does. Only `build` and `build_for` start threads.

#![tactic(auto)]

mod building;
mod cache;
mod keeping;
mod keys;
pub mod laws;
mod listing;
mod making;
mod piece;
mod places;
mod tracks;

pub use crate::building::{build, build_for, tables_for};
pub use crate::cache::{TableCache, tables_of};
pub use crate::keeping::merged;
pub use crate::listing::{TrackTables, tables};
pub use crate::tracks::has_target;
pub use worker_threads::{Free, Gate};
