//! How books are opened.

ghost use Rattle.std.specs.Prelude.{◌≡◌, ◌<◌, ◌≤◌, ◌^◌, All, IfOk, true, vec_len};
ghost use Rattle.mirror_ledger.specs.Named.{are_bounded, budget_at, IsNamed};
ghost use Rattle.mirror_ledger.specs.Asks.{AreUnused};

use crate::books::{Books, Shares};
use crate::parts::Parts;
use crate::raisers::{Raisers, copied};
use catalogue::Mirror;
use mirror_books::{Book, BudgetName, Raiser};
use std::alloc::{AllocError, Global};
use std::sync::ledger::Blank;
use std::sync::{Mutex, Wait, ledger};

/// Four new ledgers, one for the mirror at each index, and four of what the budgets are raised by.
#[derive(Drop)]
pub struct Blanks {
    /// That of the first mirror.
    pub first: Blank,
    /// That of the second mirror.
    pub second: Blank,
    /// That of the third mirror.
    pub third: Blank,
    /// That of the fourth mirror.
    pub fourth: Blank,
    /// Those of the raises, in the same order.
    pub raises: (Blank, Blank, Blank, Blank),
}

impl Blanks {
    /// Makes four ledgers with a part for each worker, and four of one part.
    pub fn new(workers: u64) -> Blanks
        ensures first { result.first.parts ≡ workers }
        ensures second { result.second.parts ≡ workers }
        ensures third { result.third.parts ≡ workers }
        ensures fourth { result.fourth.parts ≡ workers }
        ensures raises { (result.raises.0.parts ≡ 1) × (result.raises.1.parts ≡ 1) × (result.raises.2.parts ≡ 1) × (result.raises.3.parts ≡ 1) }
    {
        Blanks {
            first: Blank::new(workers),
            second: Blank::new(workers),
            third: Blank::new(workers),
            fourth: Blank::new(workers),
            raises: (Blank::new(1), Blank::new(1), Blank::new(1), Blank::new(1)),
        }
    }
}

fn budget_of(mirrors: &[Mirror], index: usize) -> u64
    requires { are_bounded mirrors.now ≡ true }
    ensures budget { result ≡ budget_at mirrors.now index }
    ensures bounded { result ≤ 2 ^ 60 }
{
    match mirrors.get(index) {
        Some(mirror) => mirror.budget,
        None => 0,
    }
}

fn split_shares<A: BudgetName, B: BudgetName, C: BudgetName, D: BudgetName>(
    alloc: Global,
    rest: Parts<A, B, C, D>,
    workers: usize,
) -> Result<Vec<Shares<A, B, C, D>>, AllocError>
    requires first { (rest.first.parts ≡ workers) × (rest.first.amount ≡ 0) }
    requires second { (rest.second.parts ≡ workers) × (rest.second.amount ≡ 0) }
    requires third { (rest.third.parts ≡ workers) × (rest.third.amount ≡ 0) }
    requires fourth { (rest.fourth.parts ≡ workers) × (rest.fourth.amount ≡ 0) }
    ensures workers { IfOk result (λ shares. vec_len shares ≡ workers) }
    ensures unused { IfOk result (λ shares. All (λ s. AreUnused s.first s.second s.third s.fourth s.asks) shares.items) }
{
    let mut rest = rest;
    let mut shares = Vec::new(alloc);
    for _worker in 0..workers {
        shares.push(rest.split_off())?;
    }
    Ok(shares)
}

/// Books that were opened, and what works with them.
#[derive(Drop)]
pub struct Opened<A: BudgetName, B: BudgetName, C: BudgetName, D: BudgetName> {
    /// The books of all mirrors.
    pub books: Books<A, B, C, D>,
    /// The shares of each worker.
    pub shares: Vec<Shares<A, B, C, D>>,
    /// The raisers of the books.
    pub raisers: Raisers<A, B, C, D>,
}

// Opens the book of the mirror at an index, with all parts of its ledger, which have no bytes, and its raiser.
fn open_one<P: BudgetName>(
    mirrors: &[Mirror],
    index: usize,
    blank: Blank,
    raises: Blank,
    workers: usize,
) -> (Mutex<Book<P>>, ledger::Share<P>, Raiser<P>)
    requires bounded { are_bounded mirrors.now ≡ true }
    requires named { IsNamed blank raises P.name P.parts P.budget P.most P.raising workers mirrors.now index }
    ensures budget { budget_at mirrors.now index ≡ P.budget }
    ensures parts { result.1.parts ≡ workers }
    ensures amount { result.1.amount ≡ 0 }
    ensures raiser { result.2 ≡ budget_at mirrors.now index }
{
    let _ = workers;
    let (book, all, raiser) = Book::open(blank, raises, budget_of(mirrors, index));
    (Mutex::new(book), all, raiser)
}

// rule: Shares at the opening
/// Opens a book for each mirror, with the total 0, shares of 0 for each worker, and the raisers of the books.
///
/// There are 1 to 4 mirrors of budgets to 2^60, and 1 to 8 workers. The four ledgers have a part for each worker, and
/// their names carry the mirrors' budgets, 0 after the last mirror, and the most that each may be raised to; the four of
/// the raises have one part. Out of memory is the only error.
pub fn open_books<A: BudgetName, B: BudgetName, C: BudgetName, D: BudgetName, R: Wait>(
    rt: &R,
    alloc: Global,
    blanks: Blanks,
    mirrors: Vec<Mirror>,
    workers: usize,
) -> Result<Opened<A, B, C, D>, AllocError>
    requires some_mirror { 0 < vec_len mirrors }
    requires few_mirrors { vec_len mirrors ≤ 4 }
    requires bounded { are_bounded mirrors.items ≡ true }
    requires some_worker { 0 < workers }
    requires few_workers { workers ≤ 8 }
    requires first { IsNamed blanks.first blanks.raises.0 A.name A.parts A.budget A.most A.raising workers mirrors.items 0 }
    requires second { IsNamed blanks.second blanks.raises.1 B.name B.parts B.budget B.most B.raising workers mirrors.items 1 }
    requires third { IsNamed blanks.third blanks.raises.2 C.name C.parts C.budget C.most C.raising workers mirrors.items 2 }
    requires fourth { IsNamed blanks.fourth blanks.raises.3 D.name D.parts D.budget D.most D.raising workers mirrors.items 3 }
    ensures given { IfOk result (λ opened. opened.books ≡ mirrors.items) }
    ensures present { IfOk result (λ opened. opened.raisers ≡ mirrors.items) }
    ensures workers { IfOk result (λ opened. vec_len opened.shares ≡ workers) }
    ensures unused { IfOk result (λ opened. All (λ s. AreUnused s.first s.second s.third s.fourth s.asks) opened.shares.items) }
{
    let _ = rt;
    let copies = copied(alloc, &mirrors)?;
    let (raises_0, raises_1, raises_2, raises_3) = blanks.raises;
    let (book_0, first, raiser_0) = open_one(&mirrors, 0, blanks.first, raises_0, workers);
    let (book_1, second, raiser_1) = open_one(&mirrors, 1, blanks.second, raises_1, workers);
    let (book_2, third, raiser_2) = open_one(&mirrors, 2, blanks.third, raises_2, workers);
    let (book_3, fourth, raiser_3) = open_one(&mirrors, 3, blanks.fourth, raises_3, workers);
    let rest = Parts {
        first,
        second,
        third,
        fourth,
    };
    let raisers = Raisers {
        mirrors: copies,
        first: raiser_0,
        second: raiser_1,
        third: raiser_2,
        fourth: raiser_3,
    };
    let books = Books {
        given: mirrors,
        first: book_0,
        second: book_1,
        third: book_2,
        fourth: book_3,
    };
    let shares = split_shares(alloc, rest, workers)?;
    Ok(Opened {
        books,
        shares,
        raisers,
    })
}
