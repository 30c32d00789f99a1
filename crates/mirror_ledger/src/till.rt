//! The till of a worker.

ghost use Rattle.std.specs.Prelude.{◌≡◌, ℕ, ◌+◌, ◌++◌, ◌∷◌, [], ◌<◌, List, length, IfSome};
ghost use Rattle.catalogue.specs.declared.mirror.Mirror.{Mirror};
ghost use Rattle.mirror_ledger.specs.Asks.{AreTallied, Ask, booked};
ghost use Rattle.mirror_ledger.specs.Order.{IsAlone, IsFirstWithRoom};

use crate::books::{Books, Shares};
use catalogue::Mirror;
use mirror_books::BudgetName;
use std::sync::Wait;

/// What grants the bytes of update checks on mirrors.
pub trait Till {
    // The mirrors with their first budgets, in the order in which they are asked.
    ghost mirrors: { Self → List Mirror };

    // What was asked so far: the bytes, and the index of the mirror that granted them.
    ghost asks: { Self → List Ask };

    // That nothing else is granted on these mirrors, and no budget is raised: what they granted so far is what was asked
    // here.
    ghost alone: { Self → Type 0 };

    /// Borrows the mirrors.
    fn given(&self) -> &[Mirror]
        ensures { result.now ≡ mirrors self.now };

    /// Grants bytes on a mirror, and returns its index; `None` if no mirror has room.
    ///
    /// The ask joins the list of asks. If nothing else is granted on these mirrors and no budget is raised, the first
    /// one that has room grants the bytes. It takes no memory, and may wait for a lock.
    fn grant_first<R: Wait>(&mut self, rt: &R, bytes: u64) -> Option<usize>
        ensures asks { asks self.new ≡ asks self.old ++ (bytes, result) ∷ [] }
        ensures mirrors { mirrors self.new ≡ mirrors self.old }
        ensures range { IfSome result (λ index. index < length (mirrors self.old)) }
        ensures first_with_room { alone self.old → IsFirstWithRoom (mirrors self.old) (asks self.old) bytes result }
        ensures alone { alone self.old → alone self.new };
}

/// A till over borrowed books, with a worker's shares of them, which are the sums of its asks.
#[derive(Drop)]
pub struct Hand<'a, A: BudgetName, B: BudgetName, C: BudgetName, D: BudgetName> {
    /// The books of all mirrors.
    pub books: &'a Books<A, B, C, D>,
    /// The worker's shares.
    pub shares: Shares<A, B, C, D>,
    ghost tallied: { AreTallied shares.first shares.second shares.third shares.fourth shares.asks },
}

impl<'a, A: BudgetName, B: BudgetName, C: BudgetName, D: BudgetName> Hand<'a, A, B, C, D> {
    /// Makes a till of books and of shares that were opened with them.
    pub fn new(books: &'a Books<A, B, C, D>, shares: Shares<A, B, C, D>) -> Hand<'a, A, B, C, D>
        requires { AreTallied shares.first shares.second shares.third shares.fourth shares.asks }
        ensures books { result.books.now ≡ books.now }
        ensures shares { result.shares ≡ shares }
    {
        Hand { books, shares }
    }

    /// Gives the shares back.
    pub fn end(self) -> Shares<A, B, C, D>
        ensures shares { result ≡ self.entry.shares }
        ensures tallied { AreTallied result.first result.second result.third result.fourth result.asks }
    {
        let Hand { shares, .. } = self;
        shares
    }
}

impl<'a, A: BudgetName, B: BudgetName, C: BudgetName, D: BudgetName> Till for Hand<'a, A, B, C, D> {
    ghost mirrors = { λ hand. hand.books.now };

    ghost asks = { λ hand. hand.shares.asks };

    ghost alone = { λ hand. IsAlone hand.books.now A.parts B.parts C.parts D.parts A.most B.most C.most D.most };

    fn given(&self) -> &[Mirror] {
        self.books.given()
    }

    fn grant_first<R: Wait>(&mut self, rt: &R, bytes: u64) -> Option<usize>
        ensures asks { self.new.shares.asks ≡ self.old.shares.asks ++ (bytes, result) ∷ [] }
        ensures mirrors { self.new.books.now ≡ self.old.books.now }
        ensures range { IfSome result (λ index. index < length self.old.books.now) }
        ensures first { self.new.shares.first ≡ self.old.shares.first + booked 0 bytes result }
        ensures second { self.new.shares.second ≡ self.old.shares.second + booked 1 bytes result }
        ensures third { self.new.shares.third ≡ self.old.shares.third + booked 2 bytes result }
        ensures fourth { self.new.shares.fourth ≡ self.old.shares.fourth + booked 3 bytes result }
        ensures first_with_room { IsAlone self.old.books.now A.parts B.parts C.parts D.parts A.most B.most C.most D.most
            → IsFirstWithRoom self.old.books.now self.old.shares.asks bytes result }
        ensures alone { IsAlone self.old.books.now A.parts B.parts C.parts D.parts A.most B.most C.most D.most
            → IsAlone self.new.books.now A.parts B.parts C.parts D.parts A.most B.most C.most D.most }
    {
        self.shares.grant_first(rt, self.books, bytes)
    }
}
