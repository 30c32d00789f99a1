// Records in memory.

use crate::calls::{follows, record_of};
use kept_records::{MemoryRecords, Turn, Words};
use std::alloc::Global;

// The store before the calls, a bar, and the calls. `other` is another writer's record, `turn` what happens at an append,
// `reads` how many reads succeed before one fails.
const ROWS: &str = "\
| p:A=ok s:B=ok r:C=ok n=none
limit=3 | p:AB=ok s:CD=full s:C=ok s:D=full s:=ok
other=s:X other=r:Y | s:A=taken n=s:X s:A=taken n=r:Y n=none s:A=ok
other=s:X other=r:Y | u=no n=s:X u=yes n=s:X n=r:Y u=yes n=r:Y n=none
turn=fails | s:A=failed n=none s:A=ok n=none
turn=drops | s:A=unknown n=none s:A=ok
turn=keeps | s:A=unknown n=s:A n=none s:B=ok
turn=s:X turn=stores turn=fails | s:A=taken n=s:X s:A=ok s:B=failed s:B=ok
turn=keeps limit=1 | s:AB=full s:A=ok
reads=1 other=s:X other=s:Y | n=s:X n=failed n=s:Y n=none
| p:A=ok s:B=ok c7:Z=ok n=none s:C=ok c1:Z=ok
limit=2 other=p:AB | c2:Z=taken n=p:AB c2:ZYX=full c2:ZY=ok s:=ok s:A=full";

fn turn_of(alloc: Global, word: &str) -> Option<Turn> {
    match word {
        "stores" => Some(Turn::Stores),
        "fails" => Some(Turn::Fails),
        "drops" => Some(Turn::DropsInDoubt),
        "keeps" => Some(Turn::StoresInDoubt),
        other => Some(Turn::Loses(record_of(alloc, other)?)),
    }
}

fn set(store: &mut MemoryRecords, alloc: Global, name: &str, value: &str) -> Option<()> {
    match name {
        "limit" => store.limit = value.parse().ok()?,
        "reads" => store.fails_after = Some(value.parse().ok()?),
        "other" => store.stored.push(record_of(alloc, value)?).ok()?,
        "turn" => store.turns.insert(0, turn_of(alloc, value)?).ok()?,
        _ => return None,
    }
    Some(())
}

fn store_of(alloc: Global, words: &str) -> Option<MemoryRecords> {
    let mut store = MemoryRecords::new(alloc);
    for word in words.split_whitespace() {
        let (name, value) = word.split_once('=')?;
        set(&mut store, alloc, name, value)?;
    }
    Some(store)
}

fn is_so(alloc: Global, row: &str) -> Option<bool> {
    let (words, calls) = row.split_once('|')?;
    let mut store = store_of(alloc, words)?;
    follows(&mut store, alloc, calls)
}

// rule: Kinds of records
// rule: Limit of all records
// rule: Appended record
// rule: Next record
// rule: Compaction
// rule: Records in memory
#[test]
fn keeps_records_by_their_turns(rt: HostRuntime) {
    for row in ROWS.lines() {
        assert!(rt; is_so(rt.alloc(), row) == Some(true), "{row}");
    }
}

// A message, and its first words.
const MESSAGES: [(&str, &str); 3] = [
    ("no room", "no room"),
    ("\n\x1b[2Ja\u{e9}~\x7f", "  [2Ja  ~ "),
    (
        "0123456789012345678901234567890123456789012345678901234567890",
        "012345678901234567890123456789012345678901234567890123456789",
    ),
];

fn begins_with(alloc: Global, message: &str, wanted: &str) -> Option<bool> {
    let words = Words::of(message.as_bytes());
    let printed = format!(in alloc; "{words}").ok()?;
    Some(printed.as_str() == wanted)
}

// rule: First words of a message
#[test]
fn prints_the_first_words_of_a_message(rt: HostRuntime) {
    for (message, wanted) in MESSAGES {
        assert!(rt;
            begins_with(rt.alloc(), message, wanted) == Some(true),
            "{wanted}"
        );
    }
}
