//! The book of one mirror.

ghost use Rattle.std.specs.Prelude.{◌≡◌, ◌↔◌, ℕ, ◌+◌, ◌-◌, ◌^◌, ◌<◌, ◌≤◌, IfErr, IsOk, OnOk, OnErr};
ghost use Rattle.mirror_books.specs.Budgets.{Account, Grants, HasRoom, Raises, bytes_left};

use std::marker::{Brand, Model, PhantomData};
use std::sync::ledger;
use std::sync::ledger::{Blank, Ledger};

/// The name of a mirror's ledger, which also has, for contracts, the mirror's first budget, the most that it may come to,
/// and the name of the ledger of its raises.
pub trait BudgetName: Ledger {
    ghost budget: { ℕ };

    ghost most: { ℕ };

    ghost raising: { ℕ };
}

impl BudgetName for Brand {
    ghost budget = { 0 };

    ghost most = { 0 };

    ghost raising = { 0 };
}

/// The name of the ledger that counts what a mirror's budget was raised by, which has one part.
pub struct Raising<P: BudgetName> {
    marker: PhantomData<P>,
}

impl<P: BudgetName> Ledger for Raising<P> {
    ghost name = { P.raising };

    ghost parts = { 1 };
}

// rule: Budget of a mirror
/// The book of a mirror: its budget and the bytes that it was granted, which never exceed it.
///
/// Contracts see it as an `Account`. Its total is the sum of all shares of its ledger, and its budget is that of its
/// `Raiser`.
#[derive(Drop)]
pub struct Book<P: BudgetName> {
    total: u64,
    budget: u64,
    counted: ledger::Book<P>,
    raised: ledger::Book<Raising<P>>,
}

impl<P: BudgetName> Model for Book<P> {
    ghost use Rattle.mirror_books.specs.Budgets.{Account, IsKept};

    ghost Value = { Account };

    ghost view = { λ b. record { budget = b.budget; total = b.total } };

    ghost invariant = { λ b. IsKept P.budget P.most b.counted.total b.raised.total (record { budget = b.budget; total = b.total }) };
}

/// A worker's part of a mirror's book, which contracts see as the bytes that the worker was granted.
#[derive(Drop)]
pub struct Share<P: BudgetName> {
    mark: ledger::Share<P>,
}

impl<P: BudgetName> Model for Share<P> {
    ghost use Rattle.std.specs.Prelude.{◌≡◌, ℕ};

    ghost Value = { ℕ };

    ghost view = { λ share. share.mark.amount };

    ghost invariant = { λ share. share.mark.parts ≡ 1 };
}

// rule: Present budgets
/// What raises the budget of a mirror's book, which contracts see as the present budget.
///
/// There is one for each book, and nothing else raises it: so the book has this budget too, each time it is locked.
#[derive(Drop)]
pub struct Raiser<P: BudgetName> {
    now: u64,
    mark: ledger::Share<Raising<P>>,
}

impl<P: BudgetName> Model for Raiser<P> {
    ghost use Rattle.std.specs.Prelude.{ℕ};
    ghost use Rattle.mirror_books.specs.Budgets.{IsRaiser};

    ghost Value = { ℕ };

    ghost view = { λ raiser. raiser.now };

    ghost invariant = { λ raiser. IsRaiser P.budget raiser.mark.parts raiser.mark.amount raiser.now };
}

/// The budget has no room for the bytes.
#[derive(Drop)]
pub struct NoRoom {
    /// How many bytes may still be granted.
    pub left: u64,
}

/// The budget is above the one that was asked for.
#[derive(Drop)]
pub struct Lower {
    /// The budget in bytes.
    pub now: u64,
}

impl<P: BudgetName> Book<P> {
    /// Opens the book of a budget in bytes, and its ledger with all parts, and the raiser of the book.
    pub fn open(blank: Blank, raises: Blank, budget: u64) -> (Book<P>, ledger::Share<P>, Raiser<P>)
        requires name { blank.name ≡ P.name }
        requires parts { blank.parts ≡ P.parts }
        requires raising { raises.name ≡ P.raising }
        requires one { raises.parts ≡ 1 }
        requires budget { budget ≡ P.budget }
        requires most { budget ≤ P.most }
        requires bounded { budget ≤ 2 ^ 60 }
        ensures budget { result.0.budget ≡ budget }
        ensures total { result.0.total ≡ 0 }
        ensures parts { result.1.parts ≡ P.parts }
        ensures amount { result.1.amount ≡ 0 }
        ensures raiser { result.2 ≡ budget }
    {
        let (counted, all) = blank.open::<P>();
        let (raised, mark) = raises.open::<Raising<P>>();
        let book = Book {
            total: 0,
            budget,
            counted,
            raised,
        };
        (book, all, Raiser { now: budget, mark })
    }

    // rule: Grant of bytes
    /// Grants bytes if they fit the budget; 0 bytes always do.
    ///
    /// The bytes are added to the total and to the share. Otherwise it returns `NoRoom` and changes
    /// nothing. If the ledger has one part, the share is the whole total. It takes no memory.
    pub fn grant(&mut self, share: &mut Share<P>, bytes: u64) -> Result<(), NoRoom>
        ensures succeeds { IsOk result ↔ HasRoom self.old bytes }
        ensures granted { OnOk result (Grants self.old self.new bytes) }
        ensures share { OnOk result (share.new ≡ share.old + bytes) }

        ensures left { IfErr result (λ refusal. refusal.left ≡ bytes_left self.old) }
        ensures err { OnErr result ((self.new ≡ self.old) × (share.new ≡ share.old)) }

        ensures from { P.budget ≤ self.old.budget }
        ensures to { self.old.budget ≤ P.most }
        ensures within { share.old ≤ self.old.total }
        ensures whole { P.parts ≡ 1 → share.old ≡ self.old.total }
    {
        self.counted.audit(&mut share.mark);
        let left = self.budget - self.total;
        if bytes > left {
            return Err(NoRoom { left });
        }
        let Book { total, counted, .. } = self;
        counted.add(&mut share.mark, bytes);
        *total += bytes;
        Ok(())
    }

    // rule: Raise of a budget
    // rule: Present budgets
    /// Raises the budget to a number of bytes, at most 2^60, by the raiser of the book, which has the same budget before
    /// and after.
    ///
    /// What was granted stays. If the budget is above that, it returns `Lower` and changes nothing. It takes no memory.
    pub fn raise(&mut self, raiser: &mut Raiser<P>, budget: u64) -> Result<(), Lower>
        requires most { budget ≤ P.most }
        requires bounded { budget ≤ 2 ^ 60 }
        ensures present { self.old.budget ≡ raiser.old }
        ensures succeeds { IsOk result ↔ (raiser.old ≤ budget) }
        ensures raised { OnOk result (Raises self.old self.new budget) }
        ensures raiser { OnOk result (raiser.new ≡ budget) }
        ensures lower { IfErr result (λ refusal. (refusal.now ≡ raiser.old) × (budget < refusal.now) × (refusal.now ≤ 2 ^ 60)) }
        ensures err { OnErr result ((self.new ≡ self.old) × (raiser.new ≡ raiser.old)) }
    {
        self.raised.audit(&mut raiser.mark);
        if budget < self.budget {
            return Err(Lower { now: self.budget });
        }
        let Book {
            budget: now,
            raised,
            ..
        } = self;
        raised.add(&mut raiser.mark, budget - *now);
        *now = budget;
        raiser.now = budget;
        Ok(())
    }

    // rule: Granted so far
    /// Returns the bytes that were granted so far, which are within the present budget, and changes nothing.
    pub fn granted(&mut self, raiser: &mut Raiser<P>) -> u64
        ensures total { result ≡ self.old.total }
        ensures within { result ≤ raiser.old }
        ensures raiser { raiser.new ≡ raiser.old }
        ensures same { self.new ≡ self.old }
    {
        self.raised.audit(&mut raiser.mark);
        self.total
    }

    /// Returns the total, which is the amount of all parts of the ledger and within the present budget.
    pub fn gather(&mut self, all: &mut ledger::Share<P>, raiser: &mut Raiser<P>) -> u64
        requires { all.old.parts ≡ P.parts }
        ensures total { result ≡ all.old.amount }
        ensures raiser { raiser.new ≡ raiser.old }
        ensures within { result ≤ raiser.old }
    {
        self.counted.audit(all);
        self.raised.audit(&mut raiser.mark);
        self.total
    }
}

impl<P: BudgetName> Share<P> {
    /// Takes one part off the ledger's parts, with no amount.
    pub fn split_from(rest: &mut ledger::Share<P>) -> Share<P>
        requires some { 0 < rest.old.parts }
        requires empty { rest.old.amount ≡ 0 }
        ensures share { result ≡ 0 }
        ensures parts { rest.new.parts + 1 ≡ rest.old.parts }
        ensures amount { rest.new.amount ≡ 0 }
    {
        Share {
            mark: rest.split_off(1, 0),
        }
    }

    /// Gives the part of the ledger.
    pub fn into_mark(self) -> ledger::Share<P>
        ensures parts { result.parts ≡ 1 }
        ensures amount { result.amount ≡ self }
    {
        let Share { mark } = self;
        mark
    }
}
