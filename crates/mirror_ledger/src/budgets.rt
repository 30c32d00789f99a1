//! The budgets of mirrors, as they are and raised.

ghost use Rattle.std.specs.Prelude.{◌≡◌, ◌≤◌, Bool, IfOk, List, true};
ghost use Rattle.catalogue.specs.declared.mirror.Mirror.{Mirror};
ghost use Rattle.mirror_ledger.specs.Named.{are_rising, budget_at};
ghost use Rattle.mirror_ledger.specs.Raising.{RaisesTo, index_of};

use crate::books::Books;
use crate::raise_error::RaiseError;
use crate::raisers::{Raisers, copied};
use catalogue::Mirror;
use mirror_books::{BudgetName, Lower};
use std::alloc::{AllocError, Global};
use std::sync::Wait;

const MAX_BUDGET: u64 = 1 << 60;

/// What reports the mirrors with their present budgets and with what they granted, and alone raises budgets.
pub trait Budgets {
    // The mirrors with their present budgets.
    ghost present: { Self → List Mirror };

    // Whether budgets may be raised.
    ghost rises: { Self → Bool };

    /// Raises the budget of the mirror of a name to a number of bytes.
    ///
    /// Fails with `UnknownMirror`, then with `TooHigh`, above 2^60 bytes, then with `Lower`, below the budget as it is;
    /// then nothing is changed. It takes no memory, and may wait for a lock.
    fn raise<R: Wait>(&mut self, rt: &R, name: &str, budget: u64) -> Result<(), RaiseError>
        requires { rises self.old ≡ true }
        ensures raises { RaisesTo (present self.old) (present self.new) name.now budget result }
        ensures rises { rises self.new ≡ rises self.old };

    /// Returns how many bytes the mirror at an index granted so far, which are within its present budget; 0 if there is
    /// none.
    ///
    /// Others may be granted meanwhile. It takes no memory, and may wait for a lock.
    fn granted<R: Wait>(&mut self, rt: &R, index: usize) -> u64
        ensures within { result ≤ budget_at (present self.old) index }
        ensures present { present self.new ≡ present self.old }
        ensures rises { rises self.new ≡ rises self.old };

    /// Copies the mirrors, each with its present budget.
    fn mirrors(&self, alloc: Global) -> Result<Vec<Mirror>, AllocError>
        ensures { IfOk result (λ mirrors. mirrors.items ≡ present self.now) };
}

/// The budgets of borrowed books, with the raisers of all of them.
#[derive(Drop)]
pub struct Treasurer<'a, A: BudgetName, B: BudgetName, C: BudgetName, D: BudgetName> {
    /// The books of all mirrors.
    pub books: &'a Books<A, B, C, D>,
    /// Their raisers.
    pub raisers: Raisers<A, B, C, D>,
}

// The index of the mirror of a name.
fn index_of(mirrors: &[Mirror], name: &str) -> Option<usize>
    ensures { result ≡ index_of mirrors.now name.now }
{
    mirrors
        .iter()
        .position(|mirror| name == mirror.name.as_str())
}

// rule: Raise by a name
// rule: Present budgets
// rule: Granted so far
impl<A: BudgetName, B: BudgetName, C: BudgetName, D: BudgetName> Budgets
    for Treasurer<'_, A, B, C, D> {
    ghost present = { λ treasurer. treasurer.raisers };

    ghost rises = { λ _. are_rising A.most B.most C.most D.most };

    fn raise<R: Wait>(&mut self, rt: &R, name: &str, budget: u64) -> Result<(), RaiseError> {
        let Some(index) = index_of(&self.raisers.mirrors, name) else {
            return Err(RaiseError::UnknownMirror);
        };
        if budget > MAX_BUDGET {
            return Err(RaiseError::TooHigh);
        }
        match self.raisers.raise_at(rt, self.books, index, budget) {
            Ok(()) => Ok(()),
            Err(Lower { now }) => Err(RaiseError::Lower(now)),
        }
    }

    fn granted<R: Wait>(&mut self, rt: &R, index: usize) -> u64 {
        self.raisers.granted_at(rt, self.books, index)
    }

    fn mirrors(&self, alloc: Global) -> Result<Vec<Mirror>, AllocError> {
        copied(alloc, &self.raisers.mirrors)
    }
}
