//! What a server's workers count, and the sums of it.
//!
//! A `Tally` is what one worker counts: replies by their status, update checks by cohort and outcome, the bytes that were
//! offered, connections, and downloads that fail. It is made before the threads begin and has a fixed number of cells, so
//! counting takes no memory and no lock. `Tallies` are those of all workers, which another thread sums while they count.
//! Read `specs/Cells.antt` for the cell in which something is counted, `specs/Rooms.antt` for the cells that there are,
//! and `specs/Statuses.antt` for how a reply's status is seen in what is written of it.
//!
//! It decides no outcome, and prints nothing. No contract says what number a cell has: another thread may change it.

#![tactic(auto)]

mod cell;
mod check;
mod codes;
pub mod laws;
mod sight;
mod tallies;
mod tally;
mod totals;
mod visit;

pub use crate::cell::{Cell, cell_of, grant_cell};
pub use crate::check::{Check, CountChecks, Grant, Kind, Outcome, Track, Uncounted};
pub use crate::codes::{CODES, position_of};
pub use crate::sight::StatusSight;
pub use crate::tallies::Tallies;
pub use crate::tally::Tally;
pub use crate::totals::{CheckTotals, MirrorTotals, Totals};
pub use crate::visit::Visit;
