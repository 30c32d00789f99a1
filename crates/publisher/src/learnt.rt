ghost use Rattle.std.specs.Prelude.{◌≡◌, ◌⊎◌, ◌↔◌, false, IsTrue, []};
ghost use Rattle.std.specs.Arc.{arc_value};
ghost use Rattle.publisher.specs.declared.learnt.Learnt.TheVariants.{Lost, Of};
ghost use Rattle.publisher.specs.Heard.{GoesOn};
ghost use Rattle.publisher.specs.Learnt.{IsLonger, Joins, heard_with, is_lost};

use crate::histories::starts_with;
use crate::receipt::Receipt;
use editions::Edition;
use std::sync::Arc;

/// What a view has learnt and not seen since.
#[derive(Drop)]
pub enum Learnt {
    /// Nothing.
    Nothing,
    /// The history of a receipt.
    Of(Receipt),
    /// Histories of which none begins with the other, so that no edition has both.
    Lost,
}

// The longer of a learnt history and an edition's, if it begins with the other.
fn joined(receipt: Receipt, edition: &Arc<Edition>) -> Learnt
    ensures learnt { Joins (Of receipt) (arc_value edition.now) result }
    ensures longer { IsLonger (Of receipt) (arc_value edition.now) result }
{
    let learnt = receipt.shared();
    if starts_with(edition.batches(), learnt.batches()) {
        return Learnt::shared(edition);
    }
    if starts_with(learnt.batches(), edition.batches()) {
        return Learnt::Of(receipt);
    }
    Learnt::Lost
}

impl Learnt {
    // `Lost` if the edition has 2^63 owners.
    fn shared(edition: &Arc<Edition>) -> Learnt
        ensures { (result ≡ Of (arc_value edition.now)) ⊎ (result ≡ Lost) }
    {
        match Receipt::of(edition) {
            Ok(receipt) => Learnt::Of(receipt),
            Err(_) => Learnt::Lost,
        }
    }

    /// Adds the history of an edition to what was learnt.
    pub(crate) fn with(self, edition: &Arc<Edition>) -> Learnt
        ensures learnt { Joins self (arc_value edition.now) result }
        ensures longer { IsLonger self (arc_value edition.now) result }
    {
        match self {
            Learnt::Nothing => Learnt::shared(edition),
            Learnt::Of(receipt) => joined(receipt, edition),
            Learnt::Lost => Learnt::Lost,
        }
    }

    /// Whether an edition begins with all that was learnt.
    pub(crate) fn fits(&self, edition: &Edition) -> bool
        ensures { IsTrue result ↔ ((is_lost self.now ≡ false) × GoesOn edition.now (heard_with self.now [])) }
    {
        match self {
            Learnt::Nothing => true,
            Learnt::Of(receipt) => starts_with(edition.batches(), receipt.shared().batches()),
            Learnt::Lost => false,
        }
    }
}
