// Two workers that ask at once, while a budget is raised beside them.

ghost use Rattle.std.specs.Prelude.{◌≡◌, ⊤, IfOk, true, vec_len};

use fixtures::{has_bounds, is_line, named_mirrors, push_numbers, three_parts};
use mirror_ledger::{BudgetJob, Budgets, Ran, Till, TillJob, run_with_tills};
use par_tables::Gate;
use std::alloc::{AllocError, Global};
use std::sync::Wait;
use std::sync::atomic::{AtomicU64, Ordering};
use std::thread::Threads;

// Counts the jobs that begin, the sum of their marks, and their tables.
#[derive(Drop)]
struct Counter {
    begun: AtomicU64,
    marks: AtomicU64,
    tables: AtomicU64,
}

impl Counter {
    fn new() -> Counter {
        Counter {
            begun: AtomicU64::new(0),
            marks: AtomicU64::new(0),
            tables: AtomicU64::new(0),
        }
    }

    // How many began, the sum of their marks, and their tables.
    fn counts(&self) -> (u64, u64, u64) {
        (
            self.begun.load(Ordering::SeqCst),
            self.marks.load(Ordering::SeqCst),
            self.tables.load(Ordering::SeqCst),
        )
    }

    // So often if a mark is there, else never.
    fn times_of(&self, mark: u64, times: u32) -> u32 {
        match self.marks.load(Ordering::SeqCst) & mark {
            0 => 0,
            _ => times,
        }
    }
}

impl Gate for Counter {
    fn begin(&self, piece: usize, tables: usize) {
        let mark = if piece == 0 { 1 } else { 2 };
        self.begun.fetch_add(1, Ordering::SeqCst);
        self.marks.fetch_add(mark, Ordering::SeqCst);
        self.tables.fetch_add(tables as u64, Ordering::SeqCst);
    }
}

// Asks for so many bytes so many times, if the gate was called for it before, and counts how often they were granted.
#[derive(Drop)]
struct Asking<'a, R> {
    rt: &'a R,
    gate: &'a Counter,
    mark: u64,
    bytes: u64,
    times: u32,
}

impl<R: Wait> TillJob for Asking<'_, R> {
    type End = u64;

    ghost comes_to = { λ _ _ _ _ _. ⊤ };

    fn work<T: Till + Drop>(self, till: T) -> (T, u64) {
        let times = self.gate.times_of(self.mark, self.times);
        let mut till = till;
        let mut granted: u64 = 0;
        for _ask in 0..times {
            if till.grant_first(self.rt, self.bytes).is_some() {
                granted = granted.saturating_add(1);
            }
        }
        (till, granted)
    }
}

// Raises the budget of the mirror `m0` byte by byte, and counts how often it was raised.
#[derive(Drop)]
struct Raising<'a, R> {
    rt: &'a R,
    to: u64,
}

impl<R: Wait> BudgetJob for Raising<'_, R> {
    type End = u64;

    ghost raises = { λ _. true };

    ghost comes_to = { λ _ _ _ _. ⊤ };

    fn work<B: Budgets>(&mut self, budgets: &mut B) -> u64 {
        let mut raised: u64 = 0;
        for budget in 1..=self.to {
            if budgets.raise(self.rt, "m0", budget).is_ok() {
                raised = raised.saturating_add(1);
            }
        }
        raised
    }
}

// A job of a mark.
fn job_of<'a, R>(rt: &'a R, gate: &'a Counter, mark: u64, asks: (u64, u32)) -> Asking<'a, R> {
    let (bytes, times) = asks;
    Asking {
        rt,
        gate,
        mark,
        bytes,
        times,
    }
}

fn two_jobs<'a, R>(
    rt: &'a R,
    gate: &'a Counter,
    alloc: Global,
    asks: (u64, u32),
) -> Result<Vec<Asking<'a, R>>, AllocError>
    ensures { IfOk result (λ jobs. vec_len jobs ≡ 2) }
{
    let mut jobs = Vec::new(alloc);
    jobs.push(job_of(rt, gate, 1, asks))?;
    jobs.push(job_of(rt, gate, 2, asks))?;
    Ok(jobs)
}

// How many asks were granted in all.
fn granted_in<J: TillJob<End = u64> + Drop>(ends: &[Result<u64, J>]) -> u64 {
    let mut granted: u64 = 0;
    for end in ends {
        if let Ok(count) = end {
            granted = granted.saturating_add(*count);
        }
    }
    granted
}

// What two workers and the raises beside them came to: how many asks were granted, to what the budget was raised, and
// the mirrors' totals.
#[derive(Drop)]
struct Outcome {
    granted: u64,
    raised: Option<u64>,
    totals: Vec<u64>,
}

fn outcome_of<'a, R: Wait>(ran: Ran<Asking<'a, R>, Raising<'a, R>>) -> Outcome {
    let granted = granted_in(&ran.ends);
    Outcome {
        granted,
        raised: ran.own,
        totals: ran.totals,
    }
}

// Two workers ask for so many bytes, so often each, over mirrors of these budgets, while the first one's is raised to so
// much.
fn run<R: Threads + Wait + Sync + AllocGlobal>(
    rt: &R,
    gate: &Counter,
    budgets: &str,
    asks: (u64, u32),
    to: u64,
) -> Option<Outcome> {
    let mirrors = named_mirrors(rt.alloc(), budgets)?;
    if !has_bounds(&mirrors) {
        return None;
    }
    let jobs = two_jobs(rt, gate, rt.alloc(), asks).ok()?;
    match run_with_tills(rt, rt.alloc(), mirrors, gate, jobs, &mut Raising { rt, to }) {
        Ok(ran) => Some(outcome_of(ran)),
        Err(_) => None,
    }
}

// Whether as many asks were granted as the only mirror's total says, and no more than it was raised to.
fn is_within<R: Threads + Wait + Sync + AllocGlobal>(
    rt: &R,
    gate: &Counter,
    times: u32,
    to: u64,
) -> Option<bool> {
    let outcome = run(rt, gate, "0", (1, times), to)?;
    let is_whole = outcome.totals.as_slice() == [outcome.granted].as_slice();
    Some(is_whole && outcome.raised == Some(to) && outcome.granted <= to)
}

// rule: Raise of a budget
// rule: Budget of a mirror
// rule: Jobs of threads
// The gate is called once in each thread, before its job.
#[test]
fn grants_no_more_than_the_budget_was_raised_to(rt: HostRuntime) {
    let gate = Counter::new();
    let is_within = is_within(&rt, &gate, 5000, 1200);
    assert!(rt; is_within == Some(true) && gate.counts() == (2, 3, 0));
}

// A row is the budgets, how often each of two workers asks for how many bytes, and how many asks are granted, then the
// totals.
const ROWS: &str = "1000|600 of 1|1000 1000
30000 0 60000 10000|55000 of 1|100000 30000 0 60000 10000
1000|2 of 600|1 600
1000 599|2 of 600|1 600 0
599 598 0 1|9 of 600|0 0 0 0 0
1200 600|2 of 600|3 1200 600
0|1 of 0|2 0";

// How many asks are granted, and the totals.
fn print_outcome<R: Threads + Wait + Sync + AllocGlobal>(
    rt: &R,
    budgets: &str,
    asks: &str,
) -> Option<String> {
    let (times, bytes) = asks.split_once(" of ")?;
    let asks = (bytes.parse().ok()?, times.parse().ok()?);
    let outcome = run(rt, &Counter::new(), budgets, asks, 0)?;
    let mut line = format!(in rt.alloc(); "{}", outcome.granted).ok()?;
    push_numbers(&mut line, &outcome.totals).ok()?;
    Some(line)
}

// Whether the asks of a row are granted so.
fn is_granted<R: Threads + Wait + Sync + AllocGlobal>(rt: &R, row: &str) -> bool {
    let (budgets, asks, wanted) = three_parts(row, "|");
    is_line(print_outcome(rt, budgets, asks), wanted)
}

// The first row whose asks aren't granted so; `none` if there is none.
fn wrong_row<R: Threads + Wait + Sync + AllocGlobal>(rt: &R) -> &'static str {
    for row in ROWS.lines() {
        if !is_granted(rt, row) {
            return row;
        }
    }
    "none"
}

// rule: Budget of a mirror
// rule: Rejected asks
// rule: Shares and asks
// rule: Total of a mirror
#[test]
fn totals_agree_with_a_hundred_thousand_grants(rt: HostRuntime) {
    let wrong = wrong_row(&rt);
    assert!(rt; wrong == "none", "{wrong}");
}
