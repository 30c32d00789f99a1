// The command `history`.

ghost use Rattle.std.specs.Prelude.{◌≡◌, ◌≤◌, ◌^◌, IfErr, IfOk, MatchOption, Ok, Err};
ghost use Rattle.omaha_arguments.specs.declared.command.HistoryAction.TheVariants.{Export};
ghost use Rattle.omaha_histories.specs.Histories.{AreNotExported, AreNotShortened, AreOfEdition, IsFoundIn, IsFoundOf, IsNotFoundOf, IsShortened, LackEdition, LeadNowhere, PrintsHistory};
ghost use Rattle.failures.specs.declared.failure.Failure.TheVariants.{Memory};
ghost use Rattle.omaha_histories.specs.Exporting.{IsExport};
ghost use Rattle.omaha_histories.specs.Listing.{listing};
ghost use Rattle.streams.specs.Streams.{Known};

use crate::histories::{history_failure, is_there, restore_failure};
use crate::restarts::{count_editions, export, list, records_until};
use failures::{Failure, HistoryFault};
use kept_records::{OpenFault, Record, Records, Stores};
use omaha_arguments::{HistoryAction, HistoryAsked};
use profiles::print;
use std::alloc::Global;
use std::thread::Threads;
use streams::{Disk, WriteWhole};
use values::Text;

// The highest number of an edition: 2^53.
const MAX_NUMBER: u64 = 9007199254740992;

// rule: Exported edition
// The records up to the edition of a number, if they make it, of which the first is that of its own number.
fn records_up_to(first: u64, records: &[Record], edition: u64) -> Option<&[Record]>
    ensures { MatchOption result (LackEdition first edition records.now) (λ some. AreOfEdition first edition records.now some.now) }
{
    let before = edition.checked_sub(first)?;
    if before >= count_editions(records) {
        return None;
    }
    Some(records_until(records, before + 1))
}

// The profile that records lead to, of which the first has this number.
fn export_all<R: Threads + AllocGlobal>(
    rt: &R,
    path: &Text,
    first: u64,
    records: &[Record],
) -> Result<Vec<u8>, Failure>
    ensures ok { IfOk result (λ text. IsExport records.now text.items) }
    ensures err { IfErr result (LeadNowhere path.now first records.now) }
{
    match export(rt, rt.alloc(), records) {
        Ok(text) => Ok(text),
        Err(error) => Err(restore_failure(path, first, error)),
    }
}

// The profile of an edition, or of the last one.
fn export_edition<R: Threads + AllocGlobal>(
    rt: &R,
    path: &Text,
    first: u64,
    records: &[Record],
    edition: Option<u64>,
) -> Result<Vec<u8>, Failure>
    ensures ok { IfOk result (λ text. IsFoundOf first records.now (Export edition) text.items) }
    ensures err { IfErr result (AreNotExported path.now first records.now edition) }
{
    match edition {
        None => export_all(rt, path, first, records),
        Some(number) => match records_up_to(first, records, number) {
            Some(some) => export_all(rt, path, first, some),
            None => Err(history_failure(path, HistoryFault::NoEdition(number))),
        },
    }
}

// rule: Compacted history
// Replaces all records by the profile that they lead to, with the number of their last edition.
fn shorten<R: Threads + AllocGlobal, K: Records>(
    rt: &R,
    path: &Text,
    kept: &mut K,
    records: &[Record],
) -> Result<(), Failure>
    ensures ok { IfOk result (λ _. IsShortened (K.first kept.old) records.now (K.first kept.new) (K.kept kept.new)) }
    ensures err { IfErr result (AreNotShortened path.now (K.first kept.old) records.now) }
{
    let first = kept.first();
    let text = match export_all(rt, path, first, records) {
        Ok(text) => text,
        Err(failure) => return Err(failure),
    };
    let number = (first - 1).saturating_add(count_editions(records));
    if number < 1 || number > MAX_NUMBER {
        return Err(history_failure(path, HistoryFault::NoEdition(number)));
    }
    match kept.compact(rt.alloc(), number, text.as_slice()) {
        Ok(()) => Ok(()),
        Err(fault) => Err(history_failure(path, HistoryFault::Append(fault))),
    }
}

// The lines of records.
fn list_all(alloc: Global, first: u64, records: &[Record]) -> Result<Vec<u8>, Failure>
    requires { (1 ≤ first) × (first ≤ 2 ^ 53) }
    ensures ok { IfOk result (λ text. text.items ≡ listing first records.now) }
    ensures err { IfErr result (λ failure. failure ≡ Memory) }
{
    match list(alloc, first, records) {
        Ok(text) => Ok(text.into_bytes()),
        Err(_) => Err(Failure::Memory),
    }
}

// What is printed of a history that was opened.
fn found_in<R: Threads + AllocGlobal, K: Records + Drop>(
    rt: &R,
    kept: K,
    records: &[Record],
    asked: &HistoryAsked,
) -> Result<Vec<u8>, Failure>
    ensures ok { IfOk result (λ text. IsFoundOf (K.first kept) records.now asked.now.action text.items) }
    ensures err { IfErr result (IsNotFoundOf asked.now.path (K.first kept) records.now asked.now.action) }
{
    let first = kept.first();
    match asked.action {
        HistoryAction::List => list_all(rt.alloc(), first, records),
        HistoryAction::Export(edition) => export_edition(rt, &asked.path, first, records, edition),
        HistoryAction::Compact => {
            let mut kept = kept;
            match shorten(rt, &asked.path, &mut kept, records) {
                Ok(()) => Ok(Vec::new(rt.alloc())),
                Err(failure) => Err(failure),
            }
        }
    }
}

// What is printed of a history.
fn find<R: Disk + Threads + AllocGlobal, H: Stores>(
    rt: &R,
    stores: &H,
    asked: &HistoryAsked,
) -> Result<Vec<u8>, Failure>
    ensures ok { IfOk result (λ text. IsFoundIn (H.found stores.now) asked.now (Ok text.items)) }
    ensures err { IfErr result (λ failure. IsFoundIn (H.found stores.now) asked.now (Err failure)) }
{
    if !is_there(rt, &asked.path) {
        let fault = HistoryFault::Open(OpenFault::Unopened);
        return Err(history_failure(&asked.path, fault));
    }
    match stores.open_records(asked.path.as_str(), u64::MAX) {
        Ok((kept, records)) => found_in(rt, kept, records.as_slice(), asked),
        Err(error) => Err(history_failure(&asked.path, HistoryFault::Open(error))),
    }
}

/// Lists the records of a history, prints the profile that they lead to, or replaces them by it and prints nothing.
///
/// Fails with the history, each time before anything is written, and with the writer.
pub fn print_history<R: Disk + Threads + AllocGlobal, H: Stores, W: WriteWhole>(
    rt: &R,
    stores: &H,
    asked: &HistoryAsked,
    writer: &mut W,
) -> Result<(), Failure>
    ensures { (input : Known) → PrintsHistory (H.found stores.now) asked.now
        (record { input = input; output = W.output writer.old })
        (record { input = input; output = W.output writer.new }) result }
{
    match find(rt, stores, asked) {
        Ok(text) => print(text.as_slice(), writer),
        Err(failure) => Err(failure),
    }
}
