// The calls of a row, and what each comes to.
//
// `p:A`, `s:A` and `r:A` append a profile, a script or a raise of these bytes; `n` reads the next record, and `u` forgets
// it; `c7:A` compacts to a profile with the number 7. After `=` is what the call comes to: `ok` or its fault, for `n` the
// record, and for `u` whether it did.

use kept_records::{AppendFault, Kind, ReadFault, Record, Records};
use std::alloc::Global;

const KINDS: [(&str, Kind); 3] = [
    ("p", Kind::Profile),
    ("s", Kind::Script),
    ("r", Kind::Raise),
];

fn kind_of(letter: &str) -> Option<Kind> {
    for (name, kind) in KINDS {
        if name == letter {
            return Some(kind);
        }
    }
    None
}

/// The record that a word names.
pub(crate) fn record_of(alloc: Global, word: &str) -> Option<Record> {
    let (letter, bytes) = word.split_once(':')?;
    Record::copy_of(alloc, kind_of(letter)?, bytes.as_bytes()).ok()
}

// Whether a word names the record.
fn is_record(found: &Record, word: &str) -> bool {
    let Some((letter, bytes)) = word.split_once(':') else {
        return false;
    };
    kind_of(letter) == Some(found.kind) && found.bytes.as_slice() == bytes.as_bytes()
}

/// Whether the words name the records, in order.
pub(crate) fn are_records(found: &[Record], words: &str) -> bool {
    let mut left = found;
    for word in words.split_whitespace() {
        let [first, rest @ ..] = left else {
            return false;
        };
        if !is_record(first, word) {
            return false;
        }
        left = rest;
    }
    left.is_empty()
}

fn name_of(done: Result<(), AppendFault>) -> &'static str {
    match done {
        Ok(()) => "ok",
        Err(AppendFault::Taken) => "taken",
        Err(AppendFault::Full) => "full",
        Err(AppendFault::Unknown(_)) => "unknown",
        Err(AppendFault::Failed(_)) => "failed",
    }
}

fn is_next(read: Result<Option<Record>, ReadFault>, wanted: &str) -> bool {
    match read {
        Ok(Some(found)) => is_record(&found, wanted),
        Ok(None) => wanted == "none",
        Err(_) => wanted == "failed",
    }
}

fn compact<R: Records>(
    records: &mut R,
    alloc: Global,
    number: u64,
    bytes: &[u8],
) -> Option<&'static str> {
    if number < 1 || number > 1 << 53 {
        return None;
    }
    let done = name_of(records.compact(alloc, number, bytes));
    if done == "ok" && records.first() != number {
        return None;
    }
    Some(done)
}

// Makes a call that has bytes, and names what it comes to.
fn change<R: Records>(
    records: &mut R,
    alloc: Global,
    head: &str,
    bytes: &[u8],
) -> Option<&'static str> {
    match head.strip_prefix('c') {
        Some(number) => compact(records, alloc, number.parse().ok()?, bytes),
        None => Some(name_of(records.append(alloc, kind_of(head)?, bytes))),
    }
}

// Whether a call comes to what is wanted.
fn is_call<R: Records>(records: &mut R, alloc: Global, call: &str, wanted: &str) -> Option<bool> {
    if call == "n" {
        return Some(is_next(records.next(alloc), wanted));
    }
    if call == "u" {
        return Some(records.unread() == (wanted == "yes"));
    }
    let (head, bytes) = call.split_once(':')?;
    Some(change(records, alloc, head, bytes.as_bytes())? == wanted)
}

/// Whether each call of a row comes to what the row says.
pub(crate) fn follows<R: Records>(records: &mut R, alloc: Global, row: &str) -> Option<bool> {
    for word in row.split_whitespace() {
        let (call, wanted) = word.split_once('=')?;
        if !is_call(records, alloc, call, wanted)? {
            return Some(false);
        }
    }
    Some(true)
}
