//! Laws of the replies of an operator's listener, each a clause of a function.

ghost use Rattle.omaha_commands.specs.Laws.{DumpsAreExpected, EditionsAreExpected, LinesDecline, LooksAreExpected, RaisesAreExpected, StatusesAreExpected, StopsAreExpected};

/// States that the commands expect whatever an operator's desk replies with 200, and that any other line of it says why the
/// desk didn't do what it was asked for.
pub fn replies()
    ensures editions { EditionsAreExpected }
    ensures raises { RaisesAreExpected }
    ensures dumps { DumpsAreExpected }
    ensures statuses { StatusesAreExpected }
    ensures stops { StopsAreExpected }
    ensures looks { LooksAreExpected }
    ensures declines { LinesDecline }
{}
