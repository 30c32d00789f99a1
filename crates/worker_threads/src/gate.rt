//! What several threads call as they begin.

/// Is called as the pieces of some work begin.
pub trait Gate {
    /// Is called once for each piece, also for an empty one, before its work: with the piece's number, from 0 on, and
    /// how many tables it has.
    fn begin(&self, piece: usize, tables: usize);
}

/// A gate that returns at once.
pub struct Free;

impl Gate for Free {
    fn begin(&self, _piece: usize, _tables: usize) {}
}
