//! Work by tills, over books that are opened for it and closed after it.

ghost use Rattle.std.specs.Prelude.{◌≡◌, ◌⊎◌, ◌<◌, ◌≤◌, Bool, List, All, IfOk, OnErr, length, map, not, true, vec_len};
ghost use Rattle.catalogue.specs.declared.mirror.Mirror.{Mirror};
ghost use Rattle.mirror_ledger.specs.Asks.{AreUnused, Ask};
ghost use Rattle.mirror_ledger.specs.Named.{AreFixed, AreTops, IsNamed, are_bounded};
ghost use Rattle.mirror_ledger.specs.Order.{IsAlone};
ghost use Rattle.mirror_ledger.specs.Tills.{AreOpened, AreTotalsOf};

use crate::books::{Books, Shares};
use crate::closing::close_tills;
use crate::opening::{Blanks, Opened, open_books};
use crate::till::{Hand, Till};
use catalogue::Mirror;
use mirror_books::BudgetName;
use std::alloc::{AllocError, Global};
use std::marker::Brand;
use std::sync::Wait;

/// What workers do with a till each.
pub trait Work<R> {
    /// How it ends.
    type End: Drop;

    // From its state before to that after, on these mirrors, with the asks of each worker, to this end.
    ghost comes_to: { Self → Self → List Mirror → List (List Ask) → Self.End → Type 0 };

    /// Does the work, with the tills of the workers.
    fn work<T: Till + Send + Drop>(&mut self, rt: &R, tills: &mut Vec<T>) -> Self::End
        ensures many { vec_len tills.new ≡ vec_len tills.old }
        ensures works { (mirrors : List Mirror) → AreOpened T.mirrors T.asks T.alone true mirrors tills.old.items
            → comes_to self.old self.new mirrors (map T.asks tills.new.items) result };
}

/// A till for each worker's shares of the books, which are those of the ledgers.
pub(crate) fn tills_of<'a, A: BudgetName, B: BudgetName, C: BudgetName, D: BudgetName>(
    alloc: Global,
    books: &'a Books<A, B, C, D>,
    shares: Vec<Shares<A, B, C, D>>,
) -> Result<Vec<Hand<'a, A, B, C, D>>, AllocError>
    requires unused { All (λ s. AreUnused s.first s.second s.third s.fourth s.asks) shares.items }
    requires first { vec_len shares ≡ A.parts }
    requires second { vec_len shares ≡ B.parts }
    requires third { vec_len shares ≡ C.parts }
    requires fourth { vec_len shares ≡ D.parts }
    ensures many { IfOk result (λ tills. vec_len tills ≡ vec_len shares) }
    ensures opened { IfOk result (λ tills. (rises : Bool) (mirrors : List Mirror) → books.now ≡ mirrors
        → AreTops rises mirrors A.most B.most C.most D.most
        → AreOpened (λ till. till.books.now) (λ till. till.shares.asks)
        (λ till. IsAlone till.books.now A.parts B.parts C.parts D.parts A.most B.most C.most D.most) (not rises) mirrors tills.items) }
{
    let mut shares = shares;
    let mut tills = Vec::new(alloc);
    while let Some(next) = shares.pop() {
        tills.push(Hand::new(books, next))?;
    }
    Ok(tills)
}

// Works over books whose ledgers have these names.
fn work_over<
    A: BudgetName + Send + Sync,
    B: BudgetName + Send + Sync,
    C: BudgetName + Send + Sync,
    D: BudgetName + Send + Sync,
    J: Work<R>,
    R: Wait,
>(
    rt: &R,
    alloc: Global,
    blanks: Blanks,
    mirrors: Vec<Mirror>,
    workers: usize,
    job: &mut J,
) -> Result<(J::End, Vec<u64>), AllocError>
    requires some_mirror { 0 < vec_len mirrors }
    requires few_mirrors { vec_len mirrors ≤ 4 }
    requires bounded { are_bounded mirrors.items ≡ true }
    requires some_worker { 0 < workers }
    requires few_workers { workers ≤ 8 }
    requires first { IsNamed blanks.first blanks.raises.0 A.name A.parts A.budget A.most A.raising workers mirrors.items 0 }
    requires second { IsNamed blanks.second blanks.raises.1 B.name B.parts B.budget B.most B.raising workers mirrors.items 1 }
    requires third { IsNamed blanks.third blanks.raises.2 C.name C.parts C.budget C.most C.raising workers mirrors.items 2 }
    requires fourth { IsNamed blanks.fourth blanks.raises.3 D.name D.parts D.budget D.most D.raising workers mirrors.items 3 }
    requires fixed { AreFixed mirrors.items A.most B.most C.most D.most }
    ensures ok { IfOk result (λ ended. (asks : List (List Ask)) × (length asks ≡ workers)
        × J.comes_to job.old job.new mirrors.items asks ended.0 × AreTotalsOf mirrors.items asks ended.1.items) }
    ensures err { OnErr result ((job.new ≡ job.old)
        ⊎ ((asks : List (List Ask)) × (end : J.End) × J.comes_to job.old job.new mirrors.items asks end)) }
{
    let Opened {
        books,
        shares,
        raisers,
    } = open_books::<A, B, C, D, R>(rt, alloc, blanks, mirrors, workers)?;
    let mut tills = tills_of(alloc, &books, shares)?;
    let end = job.work(rt, &mut tills);
    let (totals, _mirrors) = close_tills(rt, alloc, &books, tills, raisers)?;
    Ok((end, totals))
}

// rule: Tills of workers
/// Works with a till for each of 1 to 8 workers, over 1 to 4 mirrors of budgets to 2^60, and returns how the work
/// ended and each mirror's total in bytes.
///
/// Opens the mirrors' books for it and closes them after it; no budget is raised. A total is what the mirror granted to
/// all workers, and within its budget. Out of memory is the only error: before the work, which is then as it was, or
/// after it.
pub fn work_with_tills<J: Work<R>, R: Wait>(
    rt: &R,
    alloc: Global,
    mirrors: Vec<Mirror>,
    workers: usize,
    job: &mut J,
) -> Result<(J::End, Vec<u64>), AllocError>
    requires some_mirror { 0 < vec_len mirrors }
    requires few_mirrors { vec_len mirrors ≤ 4 }
    requires bounded { are_bounded mirrors.items ≡ true }
    requires some_worker { 0 < workers }
    requires few_workers { workers ≤ 8 }
    ensures ok { IfOk result (λ ended. (asks : List (List Ask)) × (length asks ≡ workers)
        × J.comes_to job.old job.new mirrors.items asks ended.0 × AreTotalsOf mirrors.items asks ended.1.items) }
    ensures err { OnErr result ((job.new ≡ job.old)
        ⊎ ((asks : List (List Ask)) × (end : J.End) × J.comes_to job.old job.new mirrors.items asks end)) }
{
    let blanks = Blanks::new(workers as u64);
    work_over::<Brand, Brand, Brand, Brand, J, R>(rt, alloc, blanks, mirrors, workers, job)
}
