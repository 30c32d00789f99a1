// What a server begins with, if what it publishes is kept.

ghost use Rattle.std.specs.Prelude.{◌≡◌, ◌↔◌, [], ◌∷◌, IfErr, IfOk, IsTrue, Some};
ghost use Rattle.omaha_histories.specs.Histories.{AreBegun, AreBegunAt, AreNoBeginning, BeginOtherwise, BeginWith, BeginsNothing, HasFirst, IsBeginning, IsFirst, IsHistoryFailure, IsNoBeginning, IsNotFirst, IsRestoreFailure, LeadNowhere, LeadToService};
ghost use Rattle.omaha_histories.specs.Server.{first_in, known_in};
ghost use Rattle.kept_records.specs.Keeping.{record_of};
ghost use Rattle.kept_records.specs.declared.record.Kind.TheVariants.{Profile};

use crate::restarts::{RestoreError, Restored, restore};
use crate::server_records::ServerRecords;
use etcd_records::is_etcd_path;
use failures::{Failure, HistoryFault};
use kept_records::{AppendFault, Kind, OpenFault, ReadFault, Record, Records, Stores, Unkept};
use omaha_arguments::Serve;
use profiles::{open_service, read_named, service_in};
use service_desks::{KeptService, Mirrors, Service};
use std::thread::Threads;
use streams::{Disk, ReadFailure};
use values::Text;
use worker_threads::Free;

/// The failure of the history at a path.
pub(crate) fn history_failure(path: &Text, fault: HistoryFault) -> Failure
    ensures { IsHistoryFailure path.now fault result }
{
    match path.clone() {
        Ok(path) => Failure::History(path, fault),
        Err(_) => Failure::Memory,
    }
}

/// The failure of a history whose records, of which the first has this number, lead to nothing.
pub(crate) fn restore_failure(path: &Text, first: u64, error: RestoreError) -> Failure
    ensures { IsRestoreFailure path.now first error result }
{
    match error {
        RestoreError::Empty => history_failure(path, HistoryFault::Empty),
        RestoreError::Record(index, fault) => {
            let number = first.saturating_add(index as u64);
            history_failure(path, HistoryFault::Record(number, fault))
        }
        RestoreError::Memory => Failure::Memory,
    }
}

// Whether a record is a profile with these bytes.
fn is_profile(first: &Record, bytes: &[u8]) -> bool
    ensures { IsTrue result → first.now ≡ record_of Profile bytes.now }
{
    first.kind == Kind::Profile && first.bytes.as_slice() == bytes
}

// Reads the first record, which another server kept meanwhile: it has to be the same profile.
fn adopt_first<R: AllocGlobal, K: Records>(
    rt: &R,
    kept: &mut K,
    path: &Text,
    bytes: &[u8],
) -> Result<(), Failure>
    requires { K.kept kept.old ≡ [] }
    ensures ok { IfOk result (λ _. K.kept kept.new ≡ record_of Profile bytes.now ∷ []) }
    ensures first { K.first kept.new ≡ K.first kept.old }
    ensures err { IfErr result (IsNotFirst path.now) }
{
    match kept.next(rt.alloc()) {
        Ok(Some(record)) => {
            if is_profile(&record, bytes) {
                Ok(())
            } else {
                Err(history_failure(path, HistoryFault::OtherProfile))
            }
        }
        Ok(None) => {
            let fault = HistoryFault::Append(AppendFault::Taken);
            Err(history_failure(path, fault))
        }
        Err(ReadFault::Failed(cause)) => {
            let fault = HistoryFault::Open(OpenFault::Failed(cause));
            Err(history_failure(path, fault))
        }
    }
}

// Keeps the profile as the first record, unless another server of the history just did.
fn keep_first<R: AllocGlobal, K: Records>(
    rt: &R,
    kept: &mut K,
    path: &Text,
    bytes: &[u8],
) -> Result<(), Failure>
    requires { K.kept kept.old ≡ [] }
    ensures ok { IfOk result (λ _. K.kept kept.new ≡ record_of Profile bytes.now ∷ []) }
    ensures first { K.first kept.new ≡ K.first kept.old }
    ensures err { IfErr result (IsNotFirst path.now) }
{
    match kept.append(rt.alloc(), Kind::Profile, bytes) {
        Ok(()) => Ok(()),
        Err(AppendFault::Taken) => adopt_first(rt, kept, path, bytes),
        Err(fault) => Err(history_failure(path, HistoryFault::Append(fault))),
    }
}

// Makes the profile's service, and keeps the profile as the first record.
fn begin<R: Disk + AllocGlobal + Threads + Sync, K: Records + Drop>(
    rt: &R,
    kept: K,
    path: &Text,
    profile: &Option<Text>,
    workers: usize,
) -> Result<KeptService<K>, Failure>
    requires none { K.kept kept ≡ [] }
    ensures leads { IfOk result (λ begun. LeadToService (K.kept begun.records) begun.service) }
    ensures begins { IfOk result (λ begun. IsFirst (R.file_at rt.now) profile.now (K.kept begun.records)) }
    ensures first { IfOk result (λ begun. K.first begun.records ≡ K.first kept) }
    ensures err { IfErr result (BeginsNothing (R.file_at rt.now) path.now profile.now) }
{
    let Some(profile) = profile else {
        return Err(history_failure(path, HistoryFault::Empty));
    };
    let bytes = read_named(rt, profile)?;
    let service = service_in(rt, profile, bytes.as_slice(), workers)?;
    let mut kept = kept;
    match keep_first(rt, &mut kept, path, bytes.as_slice()) {
        Ok(()) => Ok(KeptService {
            service,
            records: kept,
        }),
        Err(failure) => Err(failure),
    }
}

// Whether the first record has these bytes.
fn has_first(records: &[Record], bytes: &[u8]) -> bool
    ensures { IsTrue result ↔ HasFirst records.now bytes.now }
{
    match records.split_first() {
        Some((first, _others)) => first.bytes.as_slice() == bytes,
        None => false,
    }
}

// That the records begin with the profile, if one is named.
fn compare_first<R: Disk + AllocGlobal>(
    rt: &R,
    records: &[Record],
    path: &Text,
    profile: &Option<Text>,
) -> Result<(), Failure>
    ensures begins { IfOk result (λ _. BeginWith (R.file_at rt.now) profile.now records.now) }
    ensures err { IfErr result (BeginOtherwise (R.file_at rt.now) path.now profile.now records.now) }
{
    let Some(profile) = profile else {
        return Ok(());
    };
    let bytes = read_named(rt, profile)?;
    if has_first(records, bytes.as_slice()) {
        Ok(())
    } else {
        Err(history_failure(path, HistoryFault::OtherProfile))
    }
}

// Makes the service that the records lead to.
fn resume<R: Threads + AllocGlobal, K: Records + Drop>(
    rt: &R,
    kept: K,
    records: &[Record],
    path: &Text,
    workers: usize,
) -> Result<KeptService<K>, Failure>
    requires records { K.kept kept ≡ records.now }
    ensures leads { IfOk result (λ begun. LeadToService (K.kept begun.records) begun.service) }
    ensures records { IfOk result (λ begun. K.kept begun.records ≡ records.now) }
    ensures first { IfOk result (λ begun. K.first begun.records ≡ K.first kept) }
    ensures err { IfErr result (LeadNowhere path.now (K.first kept) records.now) }
{
    let workers = workers.max(1).min(16);
    match restore(rt, rt.alloc(), records, workers, &Free) {
        Ok(Restored { edition, mirrors }) => Ok(KeptService {
            service: Service {
                edition,
                mirrors: Mirrors::new(mirrors),
            },
            records: kept,
        }),
        Err(error) => Err(restore_failure(path, kept.first(), error)),
    }
}

// What records that were opened begin.
fn begin_from<R: Disk + AllocGlobal + Threads + Sync, K: Records + Drop>(
    rt: &R,
    kept: K,
    records: &[Record],
    path: &Text,
    asked: &Serve,
) -> Result<KeptService<K>, Failure>
    requires records { K.kept kept ≡ records.now }
    ensures leads { IfOk result (λ begun. LeadToService (K.kept begun.records) begun.service) }
    ensures begins { IfOk result (λ begun. AreBegun (R.file_at rt.now) asked.now.profile records.now (K.kept begun.records)) }
    ensures first { IfOk result (λ begun. K.first begun.records ≡ K.first kept) }
    ensures err { IfErr result (AreNoBeginning (R.file_at rt.now) path.now asked.now.profile (K.first kept) records.now) }
{
    let workers = asked.workers.min(16) as usize;
    if records.is_empty() {
        return begin(rt, kept, path, &asked.profile, workers);
    }
    match compare_first(rt, records, path, &asked.profile) {
        Ok(()) => match resume(rt, kept, records, path, workers) {
            Ok(begun) => Ok(begun),
            Err(failure) => Err(failure),
        },
        Err(failure) => Err(failure),
    }
}

// How many bytes a log without records may have: fewer than its header and that of its first page.
const MAX_EMPTY_LOG: u32 = 55;

// Whether there is a log beside a path that may have records.
fn has_log<R: Disk + AllocGlobal>(rt: &R, path: &str) -> bool {
    let Ok(log) = format!(in rt.alloc(); "{path}-wal") else {
        return false;
    };
    match rt.read_file(rt.alloc(), log.as_str(), MAX_EMPTY_LOG) {
        Err(ReadFailure::TooLong) => true,
        _ => false,
    }
}

/// Whether there is a regular file at a path that can be read, or a log of one that may have records, or the path is one of
/// etcd's. An open makes the file that isn't there, unless there is such a log.
pub(crate) fn is_there<R: Disk + AllocGlobal>(rt: &R, path: &Text) -> bool {
    if is_etcd_path(path.as_str()) {
        return true;
    }
    match rt.read_file(rt.alloc(), path.as_str(), 0) {
        Err(ReadFailure::Broken) => has_log(rt, path.as_str()),
        _ => true,
    }
}

// Opens the history at a path, and makes the service that it leads to. Without records the profile is the first one; if
// none is named, no file is made.
fn open_history<R: Disk + AllocGlobal + Threads + Sync, H: Stores>(
    rt: &R,
    stores: &H,
    path: &Text,
    asked: &Serve,
) -> Result<KeptService<H::Kept>, Failure>
    ensures leads { IfOk result (λ begun. LeadToService (H.Kept.kept begun.records) begun.service) }
    ensures begins { IfOk result (λ begun. AreBegunAt (H.found stores.now) (R.file_at rt.now) path.now asked.now.profile (H.Kept.first begun.records) (H.Kept.kept begun.records)) }
    ensures err { IfErr result (IsNoBeginning (R.file_at rt.now) (H.found stores.now) (Some path.now) asked.now.profile) }
{
    if asked.profile.is_none() && !is_there(rt, path) {
        return Err(history_failure(path, HistoryFault::Open(OpenFault::Unopened)));
    }
    match stores.open_records(path.as_str(), asked.history_limit) {
        Ok((kept, records)) => begin_from(rt, kept, records.as_slice(), path, asked),
        Err(error) => Err(history_failure(path, HistoryFault::Open(error))),
    }
}

// rule: Service of a history
/// Makes what a server begins with: the service of the profile, or the one that its history leads to. A history without
/// records begins with the profile, also if another server just began it so.
///
/// Fails, in this order, with the history, the profile's file, another profile than the history's, the profile's first
/// fault or rejected edit, and the first record that doesn't follow.
pub fn open_beginning<R: Disk + AllocGlobal + Threads + Sync, H: Stores>(
    rt: &R,
    stores: &H,
    asked: &Serve,
) -> Result<KeptService<ServerRecords<H::Kept>>, Failure>
    ensures begins { IfOk result (λ begun. IsBeginning (R.file_at rt.now) (H.found stores.now) asked.now.history asked.now.profile
        (record { service = begun.service; first = first_in H.Kept.first begun.records; records = known_in H.Kept.kept begun.records })) }
    ensures err { IfErr result (IsNoBeginning (R.file_at rt.now) (H.found stores.now) asked.now.history asked.now.profile) }
{
    let Some(path) = &asked.history else {
        return match open_service(rt, &asked.profile, asked.workers.min(16) as usize) {
            Ok(service) => Ok(KeptService {
                service,
                records: ServerRecords::Unkept(Unkept::new()),
            }),
            Err(failure) => Err(failure),
        };
    };
    match open_history(rt, stores, path, asked) {
        Ok(KeptService { service, records }) => Ok(KeptService {
            service,
            records: ServerRecords::Kept(records),
        }),
        Err(failure) => Err(failure),
    }
}
