// What a database file has without its log.

ghost use Rattle.std.specs.Prelude.{◌≡◌, ◌↔◌, ◌+◌, ◌<◌, ◌^◌, IfOk, IfSome, IsTrue, Some, length, slice_get};
ghost use Rattle.sqlite.specs.Files.{file_state};
ghost use Rattle.sqlite.specs.State.{HasCleanDisk, Opens};
ghost use Rattle.sqlite_disk.specs.Memory.{memory_is_usable};
ghost use Rattle.history.specs.Openings.{GoesOn, GoesOnFrom};

use crate::checksums::checksums_of;
use crate::opening::{Listed, read_all};
use kept_records::{Cause, OpenFault, Record};
use sqlite::{Connection, FileStore, Files};
use sqlite_disk::{Disk, Memory};
use sqlite_pager::Options;
use std::alloc::{AllocError, Global};
use std::rt::HostRuntime;
use streams::{Disk as Reads, ReadFailure};

/// The records of a database file without its log.
#[derive(Clone, Copy, Drop)]
pub(crate) struct Lone {
    /// The number of the first one.
    pub(crate) first: u64,
    /// How many there are.
    pub(crate) count: usize,
    /// The checksum of the last one.
    pub(crate) sum: [u8; 32],
}

// The file at a path as a disk in memory; `None` if it can't be read.
fn disk_of(rt: &HostRuntime, path: &str) -> Result<Option<Memory>, AllocError>
    ensures { IfOk result (λ read. IfSome read (λ disk. IsTrue (memory_is_usable disk))) }
{
    let bytes = match rt.read_file(rt.alloc(), path, u32::MAX) {
        Ok(bytes) => bytes,
        Err(ReadFailure::Memory) => return Err(AllocError),
        Err(_) => return Ok(None),
    };
    let mut disk = Memory::new(rt.alloc());
    match disk.write_at(0, &bytes) {
        Ok(()) => Ok(Some(disk)),
        Err(_) => Err(AllocError),
    }
}

// The database of a file without a log; `None` if it is none.
fn connect(alloc: Global, db: Memory) -> Option<Connection<FileStore<Memory>>>
    requires { IsTrue (memory_is_usable db) }
    ensures { IfSome result (λ conn. HasCleanDisk (file_state conn) → Opens (file_state conn)) }
{
    let log = Memory::new(alloc);
    match Connection::open_files(alloc, Files { log, db }, Options::new(0)) {
        Ok(conn) => Some(conn),
        Err(_) => None,
    }
}

/// Reads the records that the file at a path has without its log, or returns `None` if it is no history by itself, as a
/// file into which a log was being copied may be.
pub(crate) fn read_lone(rt: &HostRuntime, path: &str) -> Result<Option<Lone>, AllocError> {
    let Some(disk) = disk_of(rt, path)? else {
        return Ok(None);
    };
    let Some(mut conn) = connect(rt.alloc(), disk) else {
        return Ok(None);
    };
    let Listed { first, kept, sum } = match read_all(rt.alloc(), &mut conn) {
        Ok(read) => read,
        Err(OpenFault::Failed(Cause::Memory)) => return Err(AllocError),
        Err(_) => return Ok(None),
    };
    let count = kept.len();
    Ok(Some(Lone { first, count, sum }))
}

// Whether two checksums are the same.
fn is_same(one: &[u8; 32], other: &[u8; 32]) -> bool
    ensures { IsTrue result ↔ (one.now ≡ other.now) }
{
    one.as_slice() == other.as_slice()
}

// Whether the checksum at a place is this one.
fn is_sum_at(sums: &[[u8; 32]], at: usize, sum: &[u8; 32]) -> bool
    ensures is { IsTrue result → slice_get sums.now at ≡ Some sum.now }
    ensures other { slice_get sums.now at ≡ Some sum.now → IsTrue result }
{
    let Some(found) = sums.get(at) else {
        return false;
    };
    is_same(found, sum)
}

// rule: Log older than its file
// Whether records with these checksums, numbered from this number on, go on from those of a file.
fn goes_on(lone: &Lone, first: u64, sums: &[[u8; 32]]) -> bool
    ensures { IsTrue result ↔ GoesOnFrom lone.now.first lone.now.count lone.now.sum first sums.now }
{
    if lone.count == 0 || lone.first < first {
        return true;
    }
    lone.first == first && is_sum_at(sums, lone.count - 1, &lone.sum)
}

// rule: Log older than its file
/// Looks whether records that were read with a log go on from those that the file has without it.
///
/// Fails with `Astray` if they don't.
pub(crate) fn check_log(
    alloc: Global,
    lone: &Lone,
    first: u64,
    kept: &[Record],
) -> Result<(), OpenFault>
    requires { first + length kept.now < 2 ^ 63 }
    ensures { IfOk result (λ _. GoesOn lone.now.first lone.now.count lone.now.sum first kept.now) }
{
    let (sums, _last) = match checksums_of(alloc, first, kept) {
        Ok(made) => made,
        Err(_) => return Err(OpenFault::Failed(Cause::Memory)),
    };
    if goes_on(lone, first, &sums) {
        Ok(())
    } else {
        Err(OpenFault::Astray)
    }
}
