// A disk that stops at each of its calls in turn: what a call that succeeded has stored is there afterwards, and nothing
// else unless a call was in doubt.

use crate::calls::are_records;
use crate::disk::{Disk, Life};
use kept_records::{AppendFault, Cause, Kind, Record, Records};
use std::alloc::Global;

// The records after so many calls.
const WORDS: [&str; 5] = ["", "p:A", "p:A s:B", "p:A s:B r:C", "p:Z"];

// How many calls succeeded, and whether one more may have been carried out.
#[derive(Clone, Copy)]
struct Outcome {
    done: usize,
    in_doubt: bool,
}

// Three appends, and then a compaction.
fn call<R: Records>(records: &mut R, alloc: Global, number: usize) -> Result<(), AppendFault> {
    match number {
        0 => records.append(alloc, Kind::Profile, b"A"),
        1 => records.append(alloc, Kind::Script, b"B"),
        2 => records.append(alloc, Kind::Raise, b"C"),
        _ => records.compact(alloc, 7, b"Z"),
    }
}

// Makes the calls until one fails; `None` if its cause isn't the disk, or if a closed history takes one more.
fn call_all<R: Records>(records: &mut R, alloc: Global) -> Option<Outcome> {
    for done in 0..4 {
        let in_doubt = match call(records, alloc, done) {
            Ok(()) => continue,
            Err(AppendFault::Failed(Cause::Disk)) => false,
            Err(AppendFault::Unknown(Cause::Disk)) => true,
            Err(_) => return None,
        };
        let next = call(records, alloc, done);
        if in_doubt && next != Err(AppendFault::Failed(Cause::Closed)) {
            return None;
        }
        return Some(Outcome { done, in_doubt });
    }
    Some(Outcome {
        done: 4,
        in_doubt: false,
    })
}

// Makes the calls, and notes what they came to, and whether the history is live afterwards.
#[derive(Drop)]
struct Calls {
    outcome: Option<Outcome>,
    is_live: bool,
}

impl Life for Calls {
    fn live<R: Records>(&mut self, alloc: Global, records: &mut R, _found: &[Record]) {
        self.outcome = call_all(records, alloc);
    }

    fn end(&mut self, is_live: bool) {
        self.is_live = is_live;
    }
}

// Whether a history is live after calls that all succeeded, and isn't after one in doubt.
fn is_live_after(is_live: bool, outcome: Outcome) -> bool {
    if outcome.in_doubt {
        !is_live
    } else {
        is_live || outcome.done < 4
    }
}

// Whether these are the records after the calls that succeeded, or after one more that was in doubt.
fn are_after(found: &[Record], outcome: Outcome) -> bool {
    for (calls, words) in WORDS.iter().enumerate() {
        if are_records(found, words) {
            return calls == outcome.done
                || (outcome.in_doubt && calls == outcome.done.saturating_add(1));
        }
    }
    false
}

// Looks whether the records that are found are those after an outcome.
#[derive(Drop)]
struct Look {
    outcome: Outcome,
    is_after: bool,
}

impl Life for Look {
    fn live<R: Records>(&mut self, _alloc: Global, _records: &mut R, found: &[Record]) {
        self.is_after = are_after(found, self.outcome);
    }
}

// Runs a log that stops after so many calls, and returns how many calls of the history succeeded; `None` if the crash
// lost what they stored, or if the history could not be opened.
fn run(alloc: Global, log_calls: u64) -> Option<usize> {
    let mut calls = Calls {
        outcome: None,
        is_live: false,
    };
    let disk = Disk::empty(alloc, log_calls, u64::MAX).crash_after(alloc, &mut calls)?;
    let outcome = calls.outcome?;
    if !is_live_after(calls.is_live, outcome) {
        return None;
    }
    let mut look = Look {
        outcome,
        is_after: false,
    };
    let _disk = disk.crash_after(alloc, &mut look)?;
    look.is_after.then_some(outcome.done)
}

// Whether a log that stops at any call loses nothing, once the history was opened, and stops between all calls of the
// history.
fn loses_nothing(alloc: Global) -> bool {
    let mut most = 0usize;
    for log_calls in 0..600 {
        match run(alloc, log_calls) {
            Some(done) if most.saturating_add(1) < done => return false,
            Some(4) => return true,
            Some(done) => most = most.max(done),
            None if most > 0 => return false,
            None => {}
        }
    }
    false
}

// rule: Kept records
// rule: Restart after a crash
// rule: Failed append
// rule: Failed compaction
// rule: Cause of a failure
#[test]
fn keeps_what_succeeded_wherever_the_log_stops(rt: HostRuntime) {
    assert!(rt; loses_nothing(rt.alloc()));
}
