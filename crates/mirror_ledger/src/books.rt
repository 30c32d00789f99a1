//! The books of all mirrors, and a worker's shares of them.

ghost use Rattle.std.specs.Prelude.{◌≡◌, ◌↔◌, ◌+◌, ◌++◌, ◌∷◌, [], ◌<◌, ◌≤◌, true, if◌then◌else◌, length, IfSome, Some};
ghost use Rattle.mirror_ledger.specs.Asks.{AreTallied, booked};
ghost use Rattle.mirror_ledger.specs.Order.{HasRoomAt, IsAlone, IsFirstWithRoom};

use crate::asks::AskList;
use crate::parts::Parts;
use catalogue::Mirror;
use mirror_books::{Book, BudgetName, Share};
use std::marker::Model;
use std::sync::{Mutex, Wait};

/// The books of one to four mirrors, which contracts see as the list of these mirrors with their first budgets.
///
/// Each book is under a lock of its own. A place without a mirror has a book of the first budget 0, which
/// nothing asks.
pub struct Books<A: BudgetName, B: BudgetName, C: BudgetName, D: BudgetName> {
    pub(crate) given: Vec<Mirror>,
    /// The book of the first mirror.
    pub first: Mutex<Book<A>>,
    /// The book of the second mirror.
    pub second: Mutex<Book<B>>,
    /// The book of the third mirror.
    pub third: Mutex<Book<C>>,
    /// The book of the fourth mirror.
    pub fourth: Mutex<Book<D>>,
}

// Written out, so that no caller proves again how each part is dropped.
impl<A: BudgetName, B: BudgetName, C: BudgetName, D: BudgetName> Drop for Books<A, B, C, D> {
    fn drop(self) {
        let Books {
            given: _,
            first: _,
            second: _,
            third: _,
            fourth: _,
        } = self;
    }
}

impl<A: BudgetName, B: BudgetName, C: BudgetName, D: BudgetName> Model for Books<A, B, C, D> {
    ghost use Rattle.std.specs.Prelude.{List};
    ghost use Rattle.catalogue.specs.declared.mirror.Mirror.{Mirror};
    ghost use Rattle.mirror_ledger.specs.Named.{AreGiven};

    ghost Value = { List Mirror };

    ghost view = { λ books. books.given.items };

    ghost invariant = { λ books. AreGiven books.given.items A.budget B.budget C.budget D.budget };
}

/// A worker's shares of the books of all mirrors, and its asks.
pub struct Shares<A: BudgetName, B: BudgetName, C: BudgetName, D: BudgetName> {
    /// What the first mirror granted to the worker.
    pub first: Share<A>,
    /// What the second mirror granted to the worker.
    pub second: Share<B>,
    /// What the third mirror granted to the worker.
    pub third: Share<C>,
    /// What the fourth mirror granted to the worker.
    pub fourth: Share<D>,
    /// What the worker asked for, and the index of the mirror that granted it; for contracts alone.
    pub asks: AskList,
}

// Written out, so that no caller proves again how each part is dropped.
impl<A: BudgetName, B: BudgetName, C: BudgetName, D: BudgetName> Drop for Shares<A, B, C, D> {
    fn drop(self) {
        let Shares {
            first: _,
            second: _,
            third: _,
            fourth: _,
            asks: _,
        } = self;
    }
}

impl<A: BudgetName, B: BudgetName, C: BudgetName, D: BudgetName> Books<A, B, C, D> {
    /// Borrows the mirrors, as they were handed in: with their first budgets.
    pub fn given(&self) -> &[Mirror]
        ensures { result.now ≡ self.now }
    {
        self.given.as_slice()
    }
}

// Whether one book grants the bytes to the worker's share of it.
fn is_granted<P: BudgetName, R: Wait>(
    rt: &R,
    book: &Mutex<Book<P>>,
    share: &mut Share<P>,
    bytes: u64,
) -> bool
    ensures share { share.new ≡ share.old + (if result then bytes else 0) }
    ensures alone { P.parts ≡ 1 → P.most ≤ P.budget → ((result ≡ true) ↔ (share.old + bytes ≤ P.budget)) }
{
    book.lock(rt).grant(share, bytes).is_ok()
}

impl<A: BudgetName, B: BudgetName, C: BudgetName, D: BudgetName> Shares<A, B, C, D> {
    fn ask_at<R: Wait>(
        &mut self,
        rt: &R,
        books: &Books<A, B, C, D>,
        index: usize,
        bytes: u64,
    ) -> bool
        requires { index < 4 }
        ensures first { self.new.first ≡ self.old.first + (if result then booked 0 bytes (Some index) else 0) }
        ensures second { self.new.second ≡ self.old.second + (if result then booked 1 bytes (Some index) else 0) }
        ensures third { self.new.third ≡ self.old.third + (if result then booked 2 bytes (Some index) else 0) }
        ensures fourth { self.new.fourth ≡ self.old.fourth + (if result then booked 3 bytes (Some index) else 0) }
        ensures asks { self.new.asks ≡ self.old.asks }
        ensures alone { IsAlone books.now A.parts B.parts C.parts D.parts A.most B.most C.most D.most
            → AreTallied self.old.first self.old.second self.old.third self.old.fourth self.old.asks
            → ((result ≡ true) ↔ HasRoomAt books.now self.old.asks bytes index) }
    {
        match index {
            0 => is_granted(rt, &books.first, &mut self.first, bytes),
            1 => is_granted(rt, &books.second, &mut self.second, bytes),
            2 => is_granted(rt, &books.third, &mut self.third, bytes),
            _ => is_granted(rt, &books.fourth, &mut self.fourth, bytes),
        }
    }

    fn first_with_room<R: Wait>(
        &mut self,
        rt: &R,
        books: &Books<A, B, C, D>,
        bytes: u64,
    ) -> Option<usize>
        ensures range { IfSome result (λ index. index < length books.now) }
        ensures first { self.new.first ≡ self.old.first + booked 0 bytes result }
        ensures second { self.new.second ≡ self.old.second + booked 1 bytes result }
        ensures third { self.new.third ≡ self.old.third + booked 2 bytes result }
        ensures fourth { self.new.fourth ≡ self.old.fourth + booked 3 bytes result }
        ensures asks { self.new.asks ≡ self.old.asks }
        ensures alone { IsAlone books.now A.parts B.parts C.parts D.parts A.most B.most C.most D.most
            → AreTallied self.old.first self.old.second self.old.third self.old.fourth self.old.asks
            → IsFirstWithRoom books.now self.old.asks bytes result }
    {
        for index in 0..books.given.len() {
            if self.ask_at(rt, books, index, bytes) {
                return Some(index);
            }
        }
        None
    }

    // rule: Ask of a worker
    // rule: Shares and asks
    // rule: First mirror with room
    /// Grants bytes on the first mirror that has room for them, and returns its index.
    ///
    /// The mirrors are asked in the order in which they were handed in; `None` if none has room. If the
    /// ledgers have one part each, and so no other worker asks, and no budget may be raised, a mirror has
    /// room exactly if the bytes, with all that it granted to this worker, are within its budget. The
    /// bytes are added to that mirror's total and to the share of it. Each ask joins the list of asks. It
    /// takes no memory, and may wait for a lock.
    pub fn grant_first<R: Wait>(
        &mut self,
        rt: &R,
        books: &Books<A, B, C, D>,
        bytes: u64,
    ) -> Option<usize>
        ensures range { IfSome result (λ index. index < length books.now) }
        ensures asks { self.new.asks ≡ self.old.asks ++ (bytes, result) ∷ [] }
        ensures first { self.new.first ≡ self.old.first + booked 0 bytes result }
        ensures second { self.new.second ≡ self.old.second + booked 1 bytes result }
        ensures third { self.new.third ≡ self.old.third + booked 2 bytes result }
        ensures fourth { self.new.fourth ≡ self.old.fourth + booked 3 bytes result }
        ensures tally { AreTallied self.old.first self.old.second self.old.third self.old.fourth self.old.asks
            → AreTallied self.new.first self.new.second self.new.third self.new.fourth self.new.asks }
        ensures alone { IsAlone books.now A.parts B.parts C.parts D.parts A.most B.most C.most D.most
            → AreTallied self.old.first self.old.second self.old.third self.old.fourth self.old.asks
            → IsFirstWithRoom books.now self.old.asks bytes result }
    {
        let granted = self.first_with_room(rt, books, bytes);
        self.asks.push(bytes, granted);
        granted
    }

    /// Gives the parts of the ledgers.
    pub(crate) fn into_parts(self) -> Parts<A, B, C, D>
        ensures first { (result.first.parts ≡ 1) × (result.first.amount ≡ self.first) }
        ensures second { (result.second.parts ≡ 1) × (result.second.amount ≡ self.second) }
        ensures third { (result.third.parts ≡ 1) × (result.third.amount ≡ self.third) }
        ensures fourth { (result.fourth.parts ≡ 1) × (result.fourth.amount ≡ self.fourth) }
    {
        let Shares {
            first,
            second,
            third,
            fourth,
            asks: _,
        } = self;
        Parts {
            first: first.into_mark(),
            second: second.into_mark(),
            third: third.into_mark(),
            fourth: fourth.into_mark(),
        }
    }
}
