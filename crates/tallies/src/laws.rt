//! What holds of all statuses and of all catalogues, each law as the contract of a function.

ghost use Rattle.tallies.specs.RoomLaws.{CohortsHaveCells};
ghost use Rattle.tallies.specs.StatusLaws.{IsCounted, IsSameInParts};

// rule: Counted statuses
/// States that each reply of a server is counted by its own status.
pub fn every_status()
    ensures { IsCounted }
{}

// rule: Status of a reply in parts
/// States that it makes no difference in how many parts a reply is written.
pub fn any_parts()
    ensures { IsSameInParts }
{}

// rule: Cells of a tally
/// States that each cohort that is there when a tally is made has a cell of its own for each outcome.
pub fn cohorts()
    ensures { CohortsHaveCells }
{}
