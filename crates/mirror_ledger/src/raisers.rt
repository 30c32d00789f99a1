//! The raisers of all books, and the list of mirrors that they keep.

ghost use Rattle.std.specs.Prelude.{◌≡◌, ◌↔◌, ℕ, ◌<◌, ◌≤◌, ◌^◌, true, IfErr, IfOk, IsOk, OnErr, OnOk, length};
ghost use Rattle.mirror_ledger.specs.Named.{are_rising, budget_at};
ghost use Rattle.mirror_ledger.specs.Raising.{raise_at};

use crate::books::Books;
use catalogue::Mirror;
use mirror_books::{Book, BudgetName, Lower, Raiser};
use std::alloc::{AllocError, Global};
use std::marker::Model;
use std::sync::{Mutex, Wait};

// rule: Present budgets
/// The raisers of the books of one to four mirrors, which contracts see as the list of these mirrors with their present
/// budgets.
pub struct Raisers<A: BudgetName, B: BudgetName, C: BudgetName, D: BudgetName> {
    pub(crate) mirrors: Vec<Mirror>,
    pub(crate) first: Raiser<A>,
    pub(crate) second: Raiser<B>,
    pub(crate) third: Raiser<C>,
    pub(crate) fourth: Raiser<D>,
}

// Written out, so that no caller proves again how each part is dropped.
impl<A: BudgetName, B: BudgetName, C: BudgetName, D: BudgetName> Drop for Raisers<A, B, C, D> {
    fn drop(self) {
        let Raisers {
            mirrors: _,
            first: _,
            second: _,
            third: _,
            fourth: _,
        } = self;
    }
}

impl<A: BudgetName, B: BudgetName, C: BudgetName, D: BudgetName> Model for Raisers<A, B, C, D> {
    ghost use Rattle.std.specs.Prelude.{List};
    ghost use Rattle.catalogue.specs.declared.mirror.Mirror.{Mirror};
    ghost use Rattle.mirror_ledger.specs.Named.{AreGiven};

    ghost Value = { List Mirror };

    ghost view = { λ raisers. raisers.mirrors.items };

    ghost invariant = { λ raisers. AreGiven raisers.mirrors.items raisers.first raisers.second raisers.third raisers.fourth };
}

/// Copies mirrors.
pub(crate) fn copied(alloc: Global, mirrors: &[Mirror]) -> Result<Vec<Mirror>, AllocError>
    ensures { IfOk result (λ copies. copies.items ≡ mirrors.now) }
{
    let mut copies = Vec::new(alloc);
    for index in 0..mirrors.len() {
        copies.push(mirrors[index].clone()?)?;
    }
    Ok(copies)
}

// Gives the mirror at an index another budget.
fn set_budget(mirrors: &mut Vec<Mirror>, index: usize, budget: u64)
    requires { index < length mirrors.old.items }
    ensures raised { mirrors.new.items ≡ raise_at mirrors.old.items index budget }
    ensures length { length mirrors.new.items ≡ length mirrors.old.items }
    ensures this { budget_at mirrors.new.items index ≡ budget }
    ensures others { (other : ℕ) → (index ≡ other → ⊥) → budget_at mirrors.new.items other ≡ budget_at mirrors.old.items other }
{
    mirrors[index].budget = budget;
}

// Raises the budget of one book, which is that of the mirror at an index, and writes it into the list.
fn raise_one<P: BudgetName, R: Wait>(
    rt: &R,
    book: &Mutex<Book<P>>,
    raiser: &mut Raiser<P>,
    mirrors: &mut Vec<Mirror>,
    index: usize,
    budget: u64,
) -> Result<(), Lower>
    requires most { budget ≤ P.most }
    requires bounded { budget ≤ 2 ^ 60 }
    requires index { index < length mirrors.old.items }
    requires present { budget_at mirrors.old.items index ≡ raiser.old }
    ensures succeeds { IsOk result ↔ (raiser.old ≤ budget) }
    ensures raised { OnOk result (mirrors.new.items ≡ raise_at mirrors.old.items index budget) }
    ensures lower { IfErr result (λ refusal. (refusal.now ≡ raiser.old) × (budget < refusal.now)) }
    ensures err { OnErr result (mirrors.new.items ≡ mirrors.old.items) }
    ensures present { budget_at mirrors.new.items index ≡ raiser.new }
    ensures length { length mirrors.new.items ≡ length mirrors.old.items }
    ensures others { (other : ℕ) → (index ≡ other → ⊥) → budget_at mirrors.new.items other ≡ budget_at mirrors.old.items other }
{
    book.lock(rt).raise(raiser, budget)?;
    set_budget(mirrors, index, budget);
    Ok(())
}

// What one book granted so far, within the present budget.
fn granted_by<P: BudgetName, R: Wait>(rt: &R, book: &Mutex<Book<P>>, raiser: &mut Raiser<P>) -> u64
    ensures within { result ≤ raiser.old }
    ensures raiser { raiser.new ≡ raiser.old }
{
    book.lock(rt).granted(raiser)
}

impl<A: BudgetName, B: BudgetName, C: BudgetName, D: BudgetName> Raisers<A, B, C, D> {
    /// Gives the mirrors, with their present budgets.
    pub(crate) fn into_mirrors(self) -> Vec<Mirror>
        ensures { result.items ≡ self }
    {
        let Raisers {
            mirrors,
            first: _,
            second: _,
            third: _,
            fourth: _,
        } = self;
        mirrors
    }

    // rule: Granted so far
    /// Returns how many bytes the mirror at an index granted so far, within its present budget; 0 if there is none.
    ///
    /// It takes no memory, and may wait for a lock.
    pub(crate) fn granted_at<R: Wait>(
        &mut self,
        rt: &R,
        books: &Books<A, B, C, D>,
        index: usize,
    ) -> u64
        ensures within { result ≤ budget_at self.old index }
        ensures same { self.new ≡ self.old }
    {
        let Raisers {
            first,
            second,
            third,
            fourth,
            ..
        } = self;
        match index {
            0 => granted_by(rt, &books.first, first),
            1 => granted_by(rt, &books.second, second),
            2 => granted_by(rt, &books.third, third),
            3 => granted_by(rt, &books.fourth, fourth),
            _ => 0,
        }
    }

    /// Raises the budget of the mirror at an index, in its book and in the list.
    ///
    /// If it is above that, it returns `Lower` and changes nothing. It takes no memory, and may wait for a lock.
    pub(crate) fn raise_at<R: Wait>(
        &mut self,
        rt: &R,
        books: &Books<A, B, C, D>,
        index: usize,
        budget: u64,
    ) -> Result<(), Lower>
        requires rising { are_rising A.most B.most C.most D.most ≡ true }
        requires bounded { budget ≤ 2 ^ 60 }
        requires index { index < length self.old }
        ensures succeeds { IsOk result ↔ (budget_at self.old index ≤ budget) }
        ensures raised { OnOk result (self.new ≡ raise_at self.old index budget) }
        ensures lower { IfErr result (λ refusal. (refusal.now ≡ budget_at self.old index) × (budget < refusal.now)) }
        ensures err { OnErr result (self.new ≡ self.old) }
    {
        let Raisers {
            mirrors,
            first,
            second,
            third,
            fourth,
        } = self;
        match index {
            0 => raise_one(rt, &books.first, first, mirrors, 0, budget),
            1 => raise_one(rt, &books.second, second, mirrors, 1, budget),
            2 => raise_one(rt, &books.third, third, mirrors, 2, budget),
            _ => raise_one(rt, &books.fourth, fourth, mirrors, 3, budget),
        }
    }
}
