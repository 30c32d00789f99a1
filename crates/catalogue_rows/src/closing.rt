// The books of two mirrors, which a worker asks, and which are closed then.

ghost use Rattle.std.specs.Prelude.{◌≡◌, ◌<◌, ◌≤◌, true, vec_len};
ghost use Rattle.mirror_ledger.specs.Named.{are_bounded, IsNamed};

use crate::out_of_memory_tests::are_right;
use catalogue::Mirror;
use fixtures::{has_bounds, named_mirrors};
use mirror_ledger::{Blanks, Book, Books, BudgetName, Opened, Share, Shares, close, open_books};
use std::alloc::{AllocError, Global};
use std::marker::Brand;
use std::sync::{Mutex, Wait};

// How many bytes a book that has no room for 50 may still grant; `None` if it grants them.
fn left_in<P: BudgetName, R: Wait>(
    rt: &R,
    book: &Mutex<Book<P>>,
    share: &mut Share<P>,
) -> Option<u64> {
    match book.lock(rt).grant(share, 50) {
        Ok(()) => None,
        Err(no_room) => Some(no_room.left),
    }
}

// The asks of a worker, and the mirrors that grant them.
const ASKS: [(u64, Option<usize>); 5] = [
    (450, Some(0)),
    (300, Some(1)),
    (700, Some(1)),
    (1, Some(0)),
    (50, None),
];

// Whether the asks are granted so, and the first book has 49 bytes left then.
fn are_granted<A: BudgetName, B: BudgetName, C: BudgetName, D: BudgetName, R: Wait>(
    rt: &R,
    books: &Books<A, B, C, D>,
    shares: &mut Shares<A, B, C, D>,
) -> bool {
    for (bytes, granted) in ASKS {
        if shares.grant_first(rt, books, bytes) != granted {
            return false;
        }
    }
    left_in(rt, &books.first, &mut shares.first) == Some(49)
}

// Opens the books of mirrors for a worker, asks, and closes them: whether the asks are granted so, and the totals.
fn ask_over<A: BudgetName, B: BudgetName, C: BudgetName, D: BudgetName, R: Wait>(
    rt: &R,
    alloc: Global,
    blanks: Blanks,
    mirrors: Vec<Mirror>,
) -> Result<(bool, Vec<u64>), AllocError>
    requires some_mirror { 0 < vec_len mirrors }
    requires few_mirrors { vec_len mirrors ≤ 4 }
    requires bounded { are_bounded mirrors.items ≡ true }
    requires first { IsNamed blanks.first blanks.raises.0 A.name A.parts A.budget A.most A.raising 1 mirrors.items 0 }
    requires second { IsNamed blanks.second blanks.raises.1 B.name B.parts B.budget B.most B.raising 1 mirrors.items 1 }
    requires third { IsNamed blanks.third blanks.raises.2 C.name C.parts C.budget C.most C.raising 1 mirrors.items 2 }
    requires fourth { IsNamed blanks.fourth blanks.raises.3 D.name D.parts D.budget D.most D.raising 1 mirrors.items 3 }
{
    let Opened {
        books,
        shares,
        raisers,
    } = open_books::<A, B, C, D, R>(rt, alloc, blanks, mirrors, 1)?;
    let mut shares = shares;
    let are_granted = match shares.get_mut(0) {
        Some(own) => are_granted(rt, &books, own),
        None => false,
    };
    let (totals, _mirrors) = close(rt, alloc, books, shares, raisers)?;
    Ok((are_granted, totals))
}

// Whether the asks are granted so by mirrors of 500 and 1000 bytes, whose totals are what they granted; `None` if memory
// ran out.
fn are_closed<R: Wait>(rt: &R, alloc: Global) -> Option<bool> {
    let mirrors = named_mirrors(alloc, "500 1000")?;
    if !has_bounds(&mirrors) {
        return None;
    }
    let blanks = Blanks::new(1);
    match ask_over::<Brand, Brand, Brand, Brand, R>(rt, alloc, blanks, mirrors) {
        Ok((are_granted, totals)) => {
            Some(are_granted && totals.as_slice() == [451, 1000].as_slice())
        }
        Err(_) => None,
    }
}

// rule: First mirror with room
// rule: Grant of bytes
// rule: Total of a mirror
#[test]
fn open_books_and_close_without_memory(rt: HostRuntime) {
    let first = are_closed(&rt, rt.alloc());
    assert!(rt; are_right(first, are_closed(&rt, rt.alloc())));
}
