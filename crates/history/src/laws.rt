//! What holds of definitions alone.

ghost use Rattle.history.specs.Laws.{RecordsAreOne};

// rule: Records of a database
/// A database holds one list of records, and if there is one, it has one first number.
pub fn records_are_one()
    ensures { RecordsAreOne }
{}
