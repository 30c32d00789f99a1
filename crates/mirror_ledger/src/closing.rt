//! How books are closed.

ghost use Rattle.std.specs.Prelude.{◌≡◌, ℕ, ◌<◌, ◌≤◌, ◌∷◌, [], IfOk, length, map, slice_index, sum_by, vec_len};
ghost use Rattle.mirror_ledger.specs.Named.{budget_at, totals_of};
ghost use Rattle.mirror_ledger.specs.Tills.{AreTotalsOf, granted_by};

use crate::books::{Books, Shares};
use crate::parts::Parts;
use crate::raisers::Raisers;
use crate::till::Hand;
use catalogue::Mirror;
use mirror_books::{Book, BudgetName, Raiser};
use std::alloc::{AllocError, Global};
use std::sync::{Mutex, Wait, ledger};

fn gathered<A: BudgetName, B: BudgetName, C: BudgetName, D: BudgetName>(
    shares: Vec<Shares<A, B, C, D>>,
) -> Parts<A, B, C, D>
    requires { 0 < vec_len shares }
    ensures first { (result.first.parts ≡ vec_len shares) × (result.first.amount ≡ sum_by (λ s. s.first) shares.items) }
    ensures second { (result.second.parts ≡ vec_len shares) × (result.second.amount ≡ sum_by (λ s. s.second) shares.items) }
    ensures third { (result.third.parts ≡ vec_len shares) × (result.third.amount ≡ sum_by (λ s. s.third) shares.items) }
    ensures fourth { (result.fourth.parts ≡ vec_len shares) × (result.fourth.amount ≡ sum_by (λ s. s.fourth) shares.items) }
{
    let mut shares = shares;
    let Some(last) = shares.pop() else {
        unreachable!()
    };
    let mut parts = last.into_parts();
    while let Some(next) = shares.pop() {
        next.into_parts().add_to(&mut parts);
    }
    parts
}

// Takes the parts of the ledgers back from tills, whose shares are what their asks came to.
fn gather_tills<A: BudgetName, B: BudgetName, C: BudgetName, D: BudgetName>(
    tills: Vec<Hand<'_, A, B, C, D>>,
) -> Parts<A, B, C, D>
    requires { 0 < vec_len tills }
    ensures first { (result.first.parts ≡ vec_len tills.entry) × (result.first.amount ≡ granted_by (map (λ t. t.shares.asks) tills.entry.items) 0) }
    ensures second { (result.second.parts ≡ vec_len tills.entry) × (result.second.amount ≡ granted_by (map (λ t. t.shares.asks) tills.entry.items) 1) }
    ensures third { (result.third.parts ≡ vec_len tills.entry) × (result.third.amount ≡ granted_by (map (λ t. t.shares.asks) tills.entry.items) 2) }
    ensures fourth { (result.fourth.parts ≡ vec_len tills.entry) × (result.fourth.amount ≡ granted_by (map (λ t. t.shares.asks) tills.entry.items) 3) }
{
    let mut tills = tills;
    let Some(last) = tills.pop() else {
        unreachable!()
    };
    let mut parts = last.end().into_parts();
    while let Some(next) = tills.pop() {
        next.end().into_parts().add_to(&mut parts);
    }
    parts
}

// The total of one mirror, which all parts of its ledger came to.
fn total_of<P: BudgetName, R: Wait>(
    rt: &R,
    book: &Mutex<Book<P>>,
    all: &mut ledger::Share<P>,
    raiser: &mut Raiser<P>,
) -> u64
    requires { all.old.parts ≡ P.parts }
    ensures total { result ≡ all.old.amount }
    ensures within { result ≤ raiser.old }
    ensures raiser { raiser.new ≡ raiser.old }
{
    book.lock(rt).gather(all, raiser)
}

// The totals of the four books.
fn all_totals<A: BudgetName, B: BudgetName, C: BudgetName, D: BudgetName, R: Wait>(
    rt: &R,
    books: &Books<A, B, C, D>,
    parts: Parts<A, B, C, D>,
    raisers: &mut Raisers<A, B, C, D>,
) -> [u64; 4]
    requires first { parts.first.parts ≡ A.parts }
    requires second { parts.second.parts ≡ B.parts }
    requires third { parts.third.parts ≡ C.parts }
    requires fourth { parts.fourth.parts ≡ D.parts }
    ensures totals { result ≡ parts.first.amount ∷ parts.second.amount ∷ parts.third.amount ∷ parts.fourth.amount ∷ [] }
    ensures within { (index : ℕ) → index < length raisers.old → slice_index result index ≤ budget_at raisers.old index }
    ensures same { raisers.new ≡ raisers.old }
{
    let mut parts = parts;
    [
        total_of(rt, &books.first, &mut parts.first, &mut raisers.first),
        total_of(rt, &books.second, &mut parts.second, &mut raisers.second),
        total_of(rt, &books.third, &mut parts.third, &mut raisers.third),
        total_of(rt, &books.fourth, &mut parts.fourth, &mut raisers.fourth),
    ]
}

// Closes the books by all parts of their ledgers and by their raisers, and returns each mirror's total in bytes, and the
// mirrors with their budgets at the end.
fn close_parts<A: BudgetName, B: BudgetName, C: BudgetName, D: BudgetName, R: Wait>(
    rt: &R,
    alloc: Global,
    books: &Books<A, B, C, D>,
    parts: Parts<A, B, C, D>,
    raisers: Raisers<A, B, C, D>,
) -> Result<(Vec<u64>, Vec<Mirror>), AllocError>
    requires first { parts.first.parts ≡ A.parts }
    requires second { parts.second.parts ≡ B.parts }
    requires third { parts.third.parts ≡ C.parts }
    requires fourth { parts.fourth.parts ≡ D.parts }
    ensures mirrors { IfOk result (λ closed. closed.1.items ≡ raisers) }
    ensures totals { IfOk result (λ closed. closed.0.items ≡ totals_of closed.1.items
        parts.first.amount parts.second.amount parts.third.amount parts.fourth.amount) }
    ensures within { IfOk result (λ closed.
        (index : ℕ) → index < length closed.1.items → slice_index closed.0.items index ≤ budget_at closed.1.items index) }
{
    let mut raisers = raisers;
    let totals = all_totals(rt, books, parts, &mut raisers);
    let granted = Vec::from_slice(alloc, &totals[..raisers.mirrors.len()])?;
    Ok((granted, raisers.into_mirrors()))
}

/// Closes the books by the tills of all workers and by their raisers, and returns each mirror's total in bytes, and the
/// mirrors with their budgets at the end.
pub(crate) fn close_tills<A: BudgetName, B: BudgetName, C: BudgetName, D: BudgetName, R: Wait>(
    rt: &R,
    alloc: Global,
    books: &Books<A, B, C, D>,
    tills: Vec<Hand<'_, A, B, C, D>>,
    raisers: Raisers<A, B, C, D>,
) -> Result<(Vec<u64>, Vec<Mirror>), AllocError>
    requires some { 0 < vec_len tills }
    requires first { vec_len tills ≡ A.parts }
    requires second { vec_len tills ≡ B.parts }
    requires third { vec_len tills ≡ C.parts }
    requires fourth { vec_len tills ≡ D.parts }
    ensures mirrors { IfOk result (λ closed. closed.1.items ≡ raisers) }
    ensures totals { IfOk result (λ closed. AreTotalsOf closed.1.items (map (λ t. t.shares.asks) tills.entry.items) closed.0.items) }
{
    let parts = gather_tills(tills);
    let (totals, mirrors) = close_parts(rt, alloc, books, parts, raisers)?;
    Ok((totals, mirrors))
}

// rule: Total of a mirror
/// Closes the books, and returns each mirror's total in bytes, and the mirrors with their budgets at the end.
///
/// All shares of these books are handed in, and no others: as many as the ledgers have parts; and their raisers. A total
/// is the sum of the mirror's shares, and within its budget at the end. Out of memory is the only error.
pub fn close<A: BudgetName, B: BudgetName, C: BudgetName, D: BudgetName, R: Wait>(
    rt: &R,
    alloc: Global,
    books: Books<A, B, C, D>,
    shares: Vec<Shares<A, B, C, D>>,
    raisers: Raisers<A, B, C, D>,
) -> Result<(Vec<u64>, Vec<Mirror>), AllocError>
    requires some { 0 < vec_len shares }
    requires first { vec_len shares ≡ A.parts }
    requires second { vec_len shares ≡ B.parts }
    requires third { vec_len shares ≡ C.parts }
    requires fourth { vec_len shares ≡ D.parts }
    ensures mirrors { IfOk result (λ closed. closed.1.items ≡ raisers) }
    ensures totals { IfOk result (λ closed. closed.0.items ≡ totals_of closed.1.items
        (sum_by (λ s. s.first) shares.items)
        (sum_by (λ s. s.second) shares.items)
        (sum_by (λ s. s.third) shares.items)
        (sum_by (λ s. s.fourth) shares.items)) }
    ensures within { IfOk result (λ closed.
        (index : ℕ) → index < length closed.1.items → slice_index closed.0.items index ≤ budget_at closed.1.items index) }
{
    close_parts(rt, alloc, &books, gathered(shares), raisers)
}
