// Histories in files of a disk in memory.

use crate::calls::{are_records, follows};
use crate::disk::{Disk, Life};
use kept_records::{Record, Records};
use std::alloc::Global;

// The calls on a new history; the number of the first record and the records that the next open finds.
const LIVES: &str = "\
p:A=ok s:B=ok r:C=ok n=none | 1 | p:A s:B r:C
n=none | 1 |
p:A=ok s:=ok c7:Z=ok s:B=ok n=none | 7 | p:Z s:B
c3:Y=ok c5:Z=ok | 5 | p:Z
p:ABCDE=ok s:FGHIJK=full s:FGHIJ=ok r:K=full c2:ABCDEFGHIJK=full c2:ABCDEFGHIJ=ok | 2 | p:ABCDEFGHIJ";

// Makes the calls of a row on a new history.
#[derive(Drop)]
struct Calls<'a> {
    row: &'a str,
    is_empty: bool,
    are_so: bool,
}

impl Life for Calls<'_> {
    fn live<R: Records>(&mut self, alloc: Global, records: &mut R, found: &[Record]) {
        self.is_empty = found.is_empty();
        self.are_so = follows(records, alloc, self.row) == Some(true);
    }
}

// Looks for the records of a row, from its number on.
#[derive(Drop)]
struct Look<'a> {
    first: Option<u64>,
    words: &'a str,
    are_there: bool,
}

impl Life for Look<'_> {
    fn live<R: Records>(&mut self, _alloc: Global, records: &mut R, found: &[Record]) {
        self.are_there = self.first == Some(records.first()) && are_records(found, self.words);
    }
}

// The disk after the calls of a row and a close.
fn lived(alloc: Global, row: &str) -> Option<Disk> {
    let mut calls = Calls {
        row,
        is_empty: false,
        are_so: false,
    };
    let disk = Disk::empty(alloc, u64::MAX, u64::MAX).close_after(alloc, &mut calls)?;
    (calls.is_empty && calls.are_so).then_some(disk)
}

fn is_so(alloc: Global, row: &str) -> Option<bool> {
    let (calls, after) = row.split_once('|')?;
    let (first, words) = after.split_once('|')?;
    let mut look = Look {
        first: first.trim().parse().ok(),
        words,
        are_there: false,
    };
    let _disk = lived(alloc, calls)?.close_after(alloc, &mut look)?;
    Some(look.are_there)
}

// rule: Limit of all records
// rule: Compaction
// rule: Failed compaction
// rule: Records of a database
// rule: Opened history
// rule: Closed history
#[test]
fn finds_what_was_kept_after_a_close(rt: HostRuntime) {
    for row in LIVES.lines() {
        assert!(rt; is_so(rt.alloc(), row) == Some(true), "{row}");
    }
}
