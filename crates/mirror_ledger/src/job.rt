//! Jobs with a till each.

ghost use Rattle.std.specs.Prelude.{◌≡◌, [], Bool, List, true};
ghost use Rattle.catalogue.specs.declared.mirror.Mirror.{Mirror};
ghost use Rattle.mirror_ledger.specs.Asks.{Ask};
ghost use Rattle.mirror_ledger.specs.Raising.{AreNamed};

use crate::budgets::Budgets;
use crate::till::Till;
use worker_threads::Job;

/// What one worker does with a till of its own.
pub trait TillJob {
    /// What it comes to.
    type End: Send + Drop;

    // On these mirrors, alone or not, from the job, with what it asked for, to its end.
    ghost comes_to: { Bool → List Mirror → Self → List Ask → Self.End → Type 0 };

    /// Does the job, and gives the till back.
    fn work<T: Till + Drop>(self, till: T) -> (T, Self::End)
        ensures { (single : Bool) → (single ≡ true → T.alone till) → T.asks till ≡ []
            → comes_to single (T.mirrors till) self (T.asks result.0) result.1 };
}

/// A job and its till.
#[derive(Drop)]
pub(crate) struct WithTill<J, T> {
    pub(crate) job: J,
    pub(crate) till: T,
}

impl<J: TillJob, T: Till + Send + Drop> Job for WithTill<J, T> {
    type End = (T, J::End);

    ghost comes_to = { λ with end. (single : Bool) → (single ≡ true → T.alone with.till) → T.asks with.till ≡ []
        → J.comes_to single (T.mirrors with.till) with.job (T.asks end.0) end.1 };

    fn work(self) -> (T, J::End) {
        let WithTill { job, till } = self;
        job.work(till)
    }
}

/// What the caller's own thread does beside the workers, with the budgets of their mirrors.
pub trait BudgetJob {
    /// What it comes to.
    type End: Send + Drop;

    // Whether it may raise budgets.
    ghost raises: { Self → Bool };

    // From these mirrors with their budgets before it to those after it, from the job as it was to its end.
    ghost comes_to: { List Mirror → List Mirror → Self → Self.End → Type 0 };

    /// Does the job.
    fn work<B: Budgets>(&mut self, budgets: &mut B) -> Self::End
        requires named { AreNamed (B.present budgets.old) }
        requires rising { raises self.old ≡ true → B.rises budgets.old ≡ true }
        ensures raises { raises self.new ≡ raises self.old }
        ensures comes { comes_to (B.present budgets.old) (B.present budgets.new) self.old result };
}

/// The caller's own job, and the budgets, which it gives back.
#[derive(Drop)]
pub(crate) struct WithBudgets<'a, O: BudgetJob, B: Budgets> {
    pub(crate) job: &'a mut O,
    pub(crate) budgets: B,
    ghost named: { AreNamed (B.present budgets) },
    ghost rising: { O.raises job.now ≡ true → B.rises budgets ≡ true },
}

impl<O: BudgetJob, B: Budgets + Send + Drop> Job for WithBudgets<'_, O, B> {
    type End = (B, O::End);

    ghost comes_to = { λ with end. O.comes_to (B.present with.budgets) (B.present end.0) with.job.now end.1 };

    fn work(self) -> (B, O::End) {
        let WithBudgets { job, budgets } = self;
        let mut budgets = budgets;
        let end = job.work(&mut budgets);
        (budgets, end)
    }
}
