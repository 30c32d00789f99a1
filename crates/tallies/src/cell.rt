//! The cells of a tally.

ghost use Rattle.std.specs.Prelude.{◌≡◌};
ghost use Rattle.tallies.specs.Cells.{cell_of, grant_cell};

use crate::check::{Check, Grant, Kind, Outcome, Track};

/// What a cell of a tally counts.
#[derive(Clone, Copy)]
pub enum Cell {
    /// The replies of a status, by its position in `CODES`.
    Replies(usize),
    /// The update checks of a cohort's clients with an outcome.
    Checks(Track, Outcome),
    /// The update checks of apps that the catalogue doesn't have.
    Unknown,
    /// The update checks of cohorts for which there is no cell.
    Uncounted,
    /// The bytes of a kind that were offered from a mirror, by its index.
    Bytes(usize, Kind),
    /// The connections that are open, and have sent nothing since the last whole reply.
    Idle,
    /// The connections that are open, and have sent a message or a part of one.
    Active,
    /// The downloads that were cut off as the package is missing or isn't the declared one.
    Failures,
}

// rule: Cell of an update check
/// The cell that counts an update check.
pub fn cell_of(check: Check) -> Cell
    ensures { result ≡ cell_of check }
{
    match check {
        Check::Unknown => Cell::Unknown,
        Check::NoUpdate(track) => Cell::Checks(track, Outcome::NoUpdate),
        Check::Internal(track) => Cell::Checks(track, Outcome::Internal),
        Check::Offered(track, _) => Cell::Checks(track, Outcome::Offered),
    }
}

// rule: Cell of offered bytes
/// The cell that sums the bytes of a grant.
pub fn grant_cell(grant: Grant) -> Cell
    ensures { result ≡ grant_cell grant }
{
    Cell::Bytes(grant.mirror, grant.kind)
}
