//! Batches and their histories.

ghost use Rattle.std.specs.Prelude.{◌≡◌, ◌↔◌, IsTrue, map};
ghost use Rattle.std.specs.Arc.{arc_value};
ghost use Rattle.publisher.specs.Beginnings.{StartsWith};

use crate::edits::is_same_edit;
use catalogue::Batch;
use std::sync::Arc;

/// Whether two batches have the same edits in the same order.
pub fn is_same(one: &Batch, other: &Batch) -> bool
    ensures { IsTrue result ↔ (one.now ≡ other.now) }
{
    let (edits, others) = (one.edits(), other.edits());
    if edits.len() != others.len() {
        return false;
    }
    for index in 0..edits.len() {
        if !is_same_edit(&edits[index], &others[index]) {
            return false;
        }
    }
    true
}

// rule: Beginning of a history
/// Whether a history begins with all batches of an earlier one.
///
/// It compares the batches from the first on, so its time grows with the earlier history.
pub fn starts_with(later: &[Arc<Batch>], earlier: &[Arc<Batch>]) -> bool
    ensures { IsTrue result ↔ StartsWith (map arc_value later.now) (map arc_value earlier.now) }
{
    if later.len() < earlier.len() {
        return false;
    }
    for index in 0..earlier.len() {
        if !is_same(&later[index], &earlier[index]) {
            return false;
        }
    }
    true
}
