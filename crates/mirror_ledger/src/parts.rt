//! The parts of the four ledgers that no worker has.

ghost use Rattle.std.specs.Prelude.{◌≡◌, ◌+◌, ◌<◌};
ghost use Rattle.mirror_ledger.specs.Asks.{AreUnused};

use crate::asks::AskList;
use crate::books::Shares;
use mirror_books::{BudgetName, Share};
use std::sync::ledger;

/// The parts of the four ledgers that no worker has.
#[derive(Drop)]
pub(crate) struct Parts<A: BudgetName, B: BudgetName, C: BudgetName, D: BudgetName> {
    pub(crate) first: ledger::Share<A>,
    pub(crate) second: ledger::Share<B>,
    pub(crate) third: ledger::Share<C>,
    pub(crate) fourth: ledger::Share<D>,
}

impl<A: BudgetName, B: BudgetName, C: BudgetName, D: BudgetName> Parts<A, B, C, D> {
    /// Takes one part of each ledger for a worker, with no bytes.
    pub(crate) fn split_off(&mut self) -> Shares<A, B, C, D>
        requires first { (0 < self.old.first.parts) × (self.old.first.amount ≡ 0) }
        requires second { (0 < self.old.second.parts) × (self.old.second.amount ≡ 0) }
        requires third { (0 < self.old.third.parts) × (self.old.third.amount ≡ 0) }
        requires fourth { (0 < self.old.fourth.parts) × (self.old.fourth.amount ≡ 0) }
        ensures unused { AreUnused result.first result.second result.third result.fourth result.asks }
        ensures first { (self.new.first.parts + 1 ≡ self.old.first.parts) × (self.new.first.amount ≡ 0) }
        ensures second { (self.new.second.parts + 1 ≡ self.old.second.parts) × (self.new.second.amount ≡ 0) }
        ensures third { (self.new.third.parts + 1 ≡ self.old.third.parts) × (self.new.third.amount ≡ 0) }
        ensures fourth { (self.new.fourth.parts + 1 ≡ self.old.fourth.parts) × (self.new.fourth.amount ≡ 0) }
    {
        Shares {
            first: Share::split_from(&mut self.first),
            second: Share::split_from(&mut self.second),
            third: Share::split_from(&mut self.third),
            fourth: Share::split_from(&mut self.fourth),
            asks: AskList::new(),
        }
    }

    /// Adds the parts to others.
    pub(crate) fn add_to(self, sum: &mut Parts<A, B, C, D>)
        ensures first { (sum.new.first.parts ≡ sum.old.first.parts + self.first.parts) × (sum.new.first.amount ≡ sum.old.first.amount + self.first.amount) }
        ensures second { (sum.new.second.parts ≡ sum.old.second.parts + self.second.parts) × (sum.new.second.amount ≡ sum.old.second.amount + self.second.amount) }
        ensures third { (sum.new.third.parts ≡ sum.old.third.parts + self.third.parts) × (sum.new.third.amount ≡ sum.old.third.amount + self.third.amount) }
        ensures fourth { (sum.new.fourth.parts ≡ sum.old.fourth.parts + self.fourth.parts) × (sum.new.fourth.amount ≡ sum.old.fourth.amount + self.fourth.amount) }
    {
        let Parts {
            first,
            second,
            third,
            fourth,
        } = self;
        sum.first.merge(first);
        sum.second.merge(second);
        sum.third.merge(third);
        sum.fourth.merge(fourth);
    }
}
