// What records lead to.

ghost use Rattle.std.specs.Prelude.{◌≡◌, ◌≤◌, IfErr, IfOk, MatchResult, OnOk};
ghost use Rattle.profile_toml.specs.Laws.{AreMirrors};
ghost use Rattle.omaha_histories.specs.Found.{found_of};
ghost use Rattle.kept_records.specs.declared.record.Kind.TheVariants.{Profile, Raise, Script};
ghost use Rattle.omaha_histories.specs.Restarting.{BeginsAs, FollowAll, FollowsAs, IsFaultOf, LeadTo};
ghost use Rattle.omaha_histories.specs.Steps.{IsStopAfter, IsWhyNoBeginning, IsWhyNoFollower, error_by, fault_by};

use crate::restarts::fault::RestoreError;
use catalogue::Mirror;
use editions::{Edition, EditionBuilder, NextError};
use failures::RecordFault;
use kept_records::{Kind, Record};
use par_tables::Gate;
use profile_toml::{laws, read_profile, read_script};
use service_desks::replay_raise;
use std::alloc::Global;
use std::marker::Model;
use std::thread::Threads;
use values::ReadError;

/// What records lead to: an edition, and the mirrors of its packages with their budgets.
#[derive(Drop)]
pub struct Restored {
    /// The edition, whose batches are those of the records.
    pub edition: Edition,
    /// One to four valid mirrors, no two of one name.
    pub mirrors: Vec<Mirror>,
}

// What the first records lead to, without tables.
#[derive(Drop)]
struct Draft {
    builder: EditionBuilder,
    mirrors: Vec<Mirror>,
}

impl Model for Draft {
    ghost use Rattle.profile_toml.specs.Laws.{AreMirrors};
    ghost use Rattle.omaha_histories.specs.Restarting.{Found};

    ghost Value = { Found };

    ghost view = { λ d. record { history = d.builder; mirrors = d.mirrors.items } };

    ghost invariant = { λ d. AreMirrors d.mirrors.items };
}

// Why a batch has no place in a history.
fn fault_of(error: NextError) -> ReadError<RecordFault>
    ensures { result ≡ fault_by error }
{
    match error {
        NextError::Refused(refused) => ReadError::Fault(RecordFault::Refused(refused)),
        NextError::HistoryFull => ReadError::Fault(RecordFault::HistoryFull),
        NextError::Memory => ReadError::Memory,
    }
}

// What a profile begins.
fn begin_with(alloc: Global, profile: &[u8]) -> Result<Draft, ReadError<RecordFault>>
    ensures ok { IfOk result (BeginsAs Profile profile.now) }
    ensures err { IfErr result (IsWhyNoBeginning Profile profile.now) }
{
    laws::mirrors();
    let (batch, mirrors) = match read_profile(alloc, profile) {
        Ok(profile) => profile,
        Err(ReadError::Fault(fault)) => return Err(ReadError::Fault(RecordFault::Profile(fault))),
        Err(ReadError::Memory) => return Err(ReadError::Memory),
    };
    let mut builder = EditionBuilder::new(alloc);
    match builder.add(batch) {
        Ok(()) => Ok(Draft { builder, mirrors }),
        Err(error) => Err(fault_of(error)),
    }
}

// What a first record begins.
fn begin(alloc: Global, kind: Kind, bytes: &[u8]) -> Result<Draft, ReadError<RecordFault>>
    ensures ok { IfOk result (BeginsAs kind bytes.now) }
    ensures err { IfErr result (IsWhyNoBeginning kind bytes.now) }
{
    match kind {
        Kind::Profile => begin_with(alloc, bytes),
        Kind::Script => Err(ReadError::Fault(RecordFault::NoProfile)),
        Kind::Raise => Err(ReadError::Fault(RecordFault::NoProfile)),
    }
}

impl Draft {
    // Adds the batch of a script.
    fn add_script(&mut self, alloc: Global, script: &[u8]) -> Result<(), ReadError<RecordFault>>
        ensures ok { MatchResult result (λ _. FollowsAs Script script.now self.old self.new) (λ _. self.new ≡ self.old) }
        ensures err { IfErr result (IsWhyNoFollower Script script.now self.old) }
    {
        match read_script(alloc, script) {
            Ok((_base, batch)) => match self.builder.add(batch) {
                Ok(()) => Ok(()),
                Err(error) => Err(fault_of(error)),
            },
            Err(ReadError::Fault(fault)) => Err(ReadError::Fault(RecordFault::Script(fault))),
            Err(ReadError::Memory) => Err(ReadError::Memory),
        }
    }

    // Raises a budget.
    fn add_raise(&mut self, raise: &[u8]) -> Result<(), ReadError<RecordFault>>
        ensures ok { MatchResult result (λ _. FollowsAs Raise raise.now self.old self.new) (λ _. self.new ≡ self.old) }
        ensures err { IfErr result (IsWhyNoFollower Raise raise.now self.old) }
    {
        if !replay_raise(&mut self.mirrors, raise) {
            return Err(ReadError::Fault(RecordFault::Raise));
        }
        Ok(())
    }

    // Takes the next record.
    fn follow(
        &mut self,
        alloc: Global,
        kind: Kind,
        bytes: &[u8],
    ) -> Result<(), ReadError<RecordFault>>
        ensures ok { MatchResult result (λ _. FollowsAs kind bytes.now self.old self.new) (λ _. self.new ≡ self.old) }
        ensures err { IfErr result (IsWhyNoFollower kind bytes.now self.old) }
    {
        match kind {
            Kind::Profile => Err(ReadError::Fault(RecordFault::SecondProfile)),
            Kind::Script => self.add_script(alloc, bytes),
            Kind::Raise => self.add_raise(bytes),
        }
    }
}

// The error of the record at an index.
fn error_at(index: usize, error: ReadError<RecordFault>) -> RestoreError
    ensures { result ≡ error_by index error }
{
    match error {
        ReadError::Fault(fault) => RestoreError::Record(index, fault),
        ReadError::Memory => RestoreError::Memory,
    }
}

// Takes the records after the first one.
fn follow_all(alloc: Global, draft: &mut Draft, others: &[Record]) -> Result<(), RestoreError>
    ensures ok { OnOk result (FollowAll draft.old others.now draft.new) }
    ensures err { IfErr result (IsStopAfter draft.old others.now) }
{
    for index in 0..others.len() {
        let entry = &others[index];
        match draft.follow(alloc, entry.kind, entry.bytes.as_slice()) {
            Ok(()) => {}
            Err(error) => return Err(error_at(index + 1, error)),
        }
    }
    Ok(())
}

// What all records lead to, without tables.
fn read_all(alloc: Global, records: &[Record]) -> Result<Draft, RestoreError>
    ensures ok { IfOk result (LeadTo records.now) }
    ensures err { IfErr result (IsFaultOf records.now) }
{
    let Some((first, others)) = records.split_first() else {
        return Err(RestoreError::Empty);
    };
    let mut draft = match begin(alloc, first.kind, first.bytes.as_slice()) {
        Ok(draft) => draft,
        Err(error) => return Err(error_at(0, error)),
    };
    match follow_all(alloc, &mut draft, others) {
        Ok(()) => Ok(draft),
        Err(error) => Err(error),
    }
}

// rule: Restart from records
/// Makes what records lead to, of which the first is a profile.
///
/// Its edition has all batches of the profile and the scripts, and its tables are made once, for the last content, in
/// `workers` pieces, from 1 to 16, under `gate`. Each mirror has the budget that the last raise gave it, else the profile's.
/// Fails with the first record that doesn't follow.
pub fn restore<R: Threads, G: Gate + Sync>(
    rt: &R,
    alloc: Global,
    records: &[Record],
    workers: usize,
    gate: &G,
) -> Result<Restored, RestoreError>
    requires { (1 ≤ workers) × (workers ≤ 16) }
    ensures ok { IfOk result (λ restored. LeadTo records.now (found_of restored)) }
    ensures mirrors { IfOk result (λ restored. AreMirrors restored.mirrors.items) }
    ensures err { IfErr result (IsFaultOf records.now) }
{
    let Draft { builder, mirrors } = read_all(alloc, records)?;
    let edition = builder.build(rt, workers, gate)?;
    Ok(Restored { edition, mirrors })
}
