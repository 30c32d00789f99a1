//! Jobs with tills in threads, over books that are opened for them and closed after them.

ghost use Rattle.std.specs.Prelude.{◌≡◌, ◌+◌, ◌&&◌, ◌++◌, ◌∷◌, ◌<◌, ◌≤◌, [], Bool, List, All, IfErr, IfOk, None, OnOk, Some, map, nat_eq, not, true, vec_len};
ghost use Rattle.std.specs.List.{AllZip};
ghost use Rattle.catalogue.specs.declared.mirror.Mirror.{Mirror};
ghost use Rattle.worker_threads.specs.Jobs.{EndsAs};
ghost use Rattle.mirror_ledger.specs.Asks.{Ask};
ghost use Rattle.mirror_ledger.specs.Named.{AreTops, IsNamed, are_bounded};
ghost use Rattle.mirror_ledger.specs.Raising.{AreNamed};
ghost use Rattle.mirror_ledger.specs.Running.{end_of, till_of};
ghost use Rattle.mirror_ledger.specs.Tills.{AreTotalsOf, HadNoRoom, HasEnded, HaveWorked, IsFresh};

use crate::books::Books;
use crate::budgets::Treasurer;
use crate::closing::close_tills;
use crate::job::{BudgetJob, TillJob, WithBudgets, WithTill};
use crate::opening::{Blanks, Opened, open_books};
use crate::raisers::Raisers;
use crate::rejected::{all_granted_below, are_full};
use crate::run_error::RunError;
use crate::till::{Hand, Till};
use crate::working::tills_of;
use catalogue::Mirror;
use mirror_books::BudgetName;
use std::alloc::{AllocError, Global};
use std::marker::Brand;
use std::sync::Wait;
use std::thread::Threads;
use worker_threads::{Gate, Job, run_together};

/// What jobs with tills came to.
#[derive(Drop)]
pub struct Ran<J: TillJob + Drop, O: BudgetJob> {
    /// What each job came to, in order, or the job, which did not begin.
    pub ends: Vec<Result<J::End, J>>,
    /// What the own job came to, if it began.
    pub own: Option<O::End>,
    /// Each mirror's total in bytes.
    pub totals: Vec<u64>,
    /// The mirrors with their budgets at the end.
    pub mirrors: Vec<Mirror>,
}

// Gives a job one of the tills.
fn with_till<J: Drop, T: Drop>(job: J, tills: &mut Vec<T>) -> WithTill<J, T>
    requires { 0 < vec_len tills.old }
    ensures job { result.job ≡ job }
    ensures till { tills.old.items ≡ tills.new.items ++ result.till ∷ [] }
    ensures many { vec_len tills.new + 1 ≡ vec_len tills.old }
{
    let Some(till) = tills.pop() else {
        unreachable!()
    };
    WithTill { job, till }
}

// Gives each job a till.
fn paired<J: TillJob + Drop, T: Till + Drop>(
    alloc: Global,
    jobs: Vec<J>,
    tills: Vec<T>,
) -> Result<Vec<WithTill<J, T>>, AllocError>
    requires { vec_len jobs ≡ vec_len tills }
    ensures jobs { IfOk result (λ pairs. map (λ pair. pair.job) pairs.items ≡ jobs.items) }
    ensures fresh { IfOk result (λ pairs. (single : Bool) (mirrors : List Mirror)
        → All (IsFresh T.mirrors T.asks T.alone single mirrors) tills.items
        → All (λ pair. IsFresh T.mirrors T.asks T.alone single mirrors pair.till) pairs.items) }
{
    let mut tills = tills;
    let mut pairs = Vec::new(alloc);
    for job in jobs {
        pairs.push(with_till(job, &mut tills))?;
    }
    Ok(pairs)
}

// The till of a worker's job, and what the job came to.
fn parted<J: TillJob + Drop, T: Till + Drop>(
    ran: Result<(T, J::End), WithTill<J, T>>,
) -> (T, Result<J::End, J>)
    ensures { (result.0 ≡ till_of ran) × (result.1 ≡ end_of ran) }
{
    match ran {
        Ok((till, end)) => (till, Ok(end)),
        Err(WithTill { job, till }) => (till, Err(job)),
    }
}

// Keeps a till, and what its job came to.
fn keep<T: Drop, E: Drop>(
    tills: &mut Vec<T>,
    ends: &mut Vec<E>,
    till: T,
    end: E,
) -> Result<(), AllocError>
    ensures tills { OnOk result (tills.new.items ≡ tills.old.items ++ till ∷ []) }
    ensures ends { OnOk result (ends.new.items ≡ ends.old.items ++ end ∷ []) }
{
    tills.push(till)?;
    ends.push(end)?;
    Ok(())
}

// The tills of the workers' jobs, and what the jobs came to.
fn split<J: TillJob + Drop, T: Till + Drop>(
    alloc: Global,
    all: Vec<Result<(T, J::End), WithTill<J, T>>>,
) -> Result<(Vec<T>, Vec<Result<J::End, J>>), AllocError>
    ensures tills { IfOk result (λ parts. parts.0.items ≡ map till_of all.items) }
    ensures ends { IfOk result (λ parts. parts.1.items ≡ map end_of all.items) }
{
    let mut tills = Vec::new(alloc);
    let mut ends = Vec::new(alloc);
    for ran in all {
        let (till, end) = parted(ran);
        keep(&mut tills, &mut ends, till, end)?;
    }
    Ok((tills, ends))
}

// Does jobs with a till each, and the own job beside them.
fn work_together<
    J: TillJob + Send + Drop,
    O: Job + Drop,
    T: Till + Send + Drop,
    G: Gate + Sync,
    R: Threads + Wait + Sync,
>(
    rt: &R,
    alloc: Global,
    gate: &G,
    jobs: Vec<J>,
    tills: Vec<T>,
    own: O,
) -> Result<(Vec<T>, Vec<Result<J::End, J>>, Result<O::End, O>), AllocError>
    requires { vec_len jobs ≡ vec_len tills }
    ensures many { IfOk result (λ done. vec_len done.0 ≡ vec_len tills) }
    ensures own { IfOk result (λ done. EndsAs O.comes_to own done.2) }
    ensures works { IfOk result (λ done. (single : Bool) (mirrors : List Mirror)
        → All (IsFresh T.mirrors T.asks T.alone single mirrors) tills.items
        → HaveWorked (J.comes_to single mirrors) jobs.items (map T.asks done.0.items) done.1.items) }
{
    let pairs = paired(alloc, jobs, tills)?;
    let Ok((all, own)) = run_together(rt, alloc, gate, pairs, own) else {
        return Err(AllocError);
    };
    let (tills, ends) = split(alloc, all)?;
    Ok((tills, ends, own))
}

// The raisers that the own job had or still has, and what it came to, if it began.
fn own_parted<
    'a,
    O: BudgetJob,
    A: BudgetName + Send + Sync,
    B: BudgetName + Send + Sync,
    C: BudgetName + Send + Sync,
    D: BudgetName + Send + Sync,
>(
    ran: Result<(Treasurer<'a, A, B, C, D>, O::End), WithBudgets<'a, O, Treasurer<'a, A, B, C, D>>>,
) -> (Raisers<A, B, C, D>, Option<O::End>)
    ensures ok { IfOk ran.entry (λ done. (result.0 ≡ done.0.raisers) × (result.1 ≡ Some done.1)) }
    ensures err { IfErr ran.entry (λ with. (result.0 ≡ with.budgets.raisers) × (result.1 ≡ None)) }
{
    match ran {
        Ok((Treasurer { raisers, .. }, end)) => (raisers, Some(end)),
        Err(
            WithBudgets {
                budgets: Treasurer { raisers, .. },
                ..
            },
        ) => (raisers, None),
    }
}

// Closes the books, and fails with `RoomLeft` if an ask was rejected for which a mirror has room.
fn closed<A: BudgetName, B: BudgetName, C: BudgetName, D: BudgetName, R: Wait>(
    rt: &R,
    alloc: Global,
    books: &Books<A, B, C, D>,
    tills: Vec<Hand<'_, A, B, C, D>>,
    raisers: Raisers<A, B, C, D>,
) -> Result<(Vec<u64>, Vec<Mirror>), RunError>
    requires some { 0 < vec_len tills }
    requires first { vec_len tills ≡ A.parts }
    requires second { vec_len tills ≡ B.parts }
    requires third { vec_len tills ≡ C.parts }
    requires fourth { vec_len tills ≡ D.parts }
    ensures mirrors { IfOk result (λ closed. closed.1.items ≡ raisers) }
    ensures totals { IfOk result (λ closed. AreTotalsOf closed.1.items (map (λ t. t.shares.asks) tills.entry.items) closed.0.items) }
    ensures no_room { IfOk result (λ closed. HadNoRoom books.now (map (λ t. t.shares.asks) tills.entry.items) closed.0.items) }
{
    let bound = all_granted_below(&tills);
    let (totals, mirrors) = close_tills(rt, alloc, books, tills, raisers)?;
    let given = books.given();
    if !are_full(given, &totals, bound) {
        return Err(RunError::RoomLeft);
    }
    Ok((totals, mirrors))
}

// Runs jobs over books whose ledgers have these names.
fn run_over<
    A: BudgetName + Send + Sync,
    B: BudgetName + Send + Sync,
    C: BudgetName + Send + Sync,
    D: BudgetName + Send + Sync,
    J: TillJob + Send + Drop,
    O: BudgetJob,
    G: Gate + Sync,
    R: Threads + Wait + Sync,
>(
    rt: &R,
    alloc: Global,
    blanks: Blanks,
    mirrors: Vec<Mirror>,
    gate: &G,
    jobs: Vec<J>,
    own: &mut O,
) -> Result<Ran<J, O>, RunError>
    requires some_mirror { 0 < vec_len mirrors }
    requires few_mirrors { vec_len mirrors ≤ 4 }
    requires bounded { are_bounded mirrors.items ≡ true }
    requires named { AreNamed mirrors.items }
    requires some_worker { 0 < vec_len jobs }
    requires few_workers { vec_len jobs ≤ 8 }
    requires first { IsNamed blanks.first blanks.raises.0 A.name A.parts A.budget A.most A.raising (vec_len jobs) mirrors.items 0 }
    requires second { IsNamed blanks.second blanks.raises.1 B.name B.parts B.budget B.most B.raising (vec_len jobs) mirrors.items 1 }
    requires third { IsNamed blanks.third blanks.raises.2 C.name C.parts C.budget C.most C.raising (vec_len jobs) mirrors.items 2 }
    requires fourth { IsNamed blanks.fourth blanks.raises.3 D.name D.parts D.budget D.most D.raising (vec_len jobs) mirrors.items 3 }
    requires tops { AreTops (O.raises own.old) mirrors.items A.most B.most C.most D.most }
    ensures works { IfOk result (λ ran. (asks : List (List Ask))
        × HaveWorked (J.comes_to (not (O.raises own.old) && nat_eq (vec_len jobs) 1) mirrors.items) jobs.items asks ran.ends.items
        × AreTotalsOf ran.mirrors.items asks ran.totals.items
        × HadNoRoom mirrors.items asks ran.totals.items) }
    ensures own { IfOk result (λ ran. HasEnded (λ before after. O.comes_to before after own.old) mirrors.items ran.mirrors.items ran.own) }
{
    let Opened {
        books,
        shares,
        raisers,
    } = open_books::<A, B, C, D, R>(rt, alloc, blanks, mirrors, jobs.len())?;
    let tills = tills_of(alloc, &books, shares)?;
    let beside = WithBudgets {
        job: own,
        budgets: Treasurer {
            books: &books,
            raisers,
        },
    };
    let (tills, ends, own) = work_together(rt, alloc, gate, jobs, tills, beside)?;
    let (raisers, own) = own_parted(own);
    let (totals, mirrors) = closed(rt, alloc, &books, tills, raisers)?;
    Ok(Ran {
        ends,
        own,
        totals,
        mirrors,
    })
}

// rule: Jobs with tills
/// Does 1 to 8 jobs in a thread each, which begin together or not at all, with a till each over 1 to 4 valid mirrors, no
/// two of one name, and the caller's own job beside them; returns what each came to, each mirror's total in bytes, and the
/// mirrors with their budgets at the end.
///
/// Opens the mirrors' books for it and closes them after it. Only the own job raises budgets, so they are at the end what
/// it left them at. A total is what the mirror granted to all workers, and within its budget at the end. An ask was
/// rejected only if no mirror's first budget has room for it beside its total. `gate` is called once in each thread before
/// its job begins. If a thread can't be started, no job begins, the own one neither, and each other is given back.
///
/// Fails with `Memory`, before the jobs or after them, and with `RoomLeft` if an ask was rejected for which a mirror has
/// room by its total and its first budget. No run comes to that: a book rejects only what its budget has no room for, which
/// is no less than the first one, and its total never falls.
pub fn run_with_tills<
    J: TillJob + Send + Drop,
    O: BudgetJob,
    G: Gate + Sync,
    R: Threads + Wait + Sync,
>(
    rt: &R,
    alloc: Global,
    mirrors: Vec<Mirror>,
    gate: &G,
    jobs: Vec<J>,
    own: &mut O,
) -> Result<Ran<J, O>, RunError>
    requires some_mirror { 0 < vec_len mirrors }
    requires few_mirrors { vec_len mirrors ≤ 4 }
    requires bounded { are_bounded mirrors.items ≡ true }
    requires named { AreNamed mirrors.items }
    requires some_worker { 0 < vec_len jobs }
    requires few_workers { vec_len jobs ≤ 8 }
    ensures works { IfOk result (λ ran. (asks : List (List Ask))
        × HaveWorked (J.comes_to (not (O.raises own.old) && nat_eq (vec_len jobs) 1) mirrors.items) jobs.items asks ran.ends.items
        × AreTotalsOf ran.mirrors.items asks ran.totals.items
        × HadNoRoom mirrors.items asks ran.totals.items) }
    ensures own { IfOk result (λ ran. HasEnded (λ before after. O.comes_to before after own.old) mirrors.items ran.mirrors.items ran.own) }
{
    let blanks = Blanks::new(jobs.len() as u64);
    run_over::<Brand, Brand, Brand, Brand, J, O, G, R>(rt, alloc, blanks, mirrors, gate, jobs, own)
}
