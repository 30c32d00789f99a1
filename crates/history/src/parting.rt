// A log whose file is gone.

ghost use Rattle.std.specs.Prelude.{◌↔◌, IsTrue};
ghost use Rattle.history.specs.Openings.{IsParted};

use kept_records::{Cause, OpenFault};
use std::alloc::AllocError;
use std::io::ErrorKind;
use std::rt::Files;

// How many bytes the header of a log and that of its first page have.
const MIN_LOG: u64 = 56;

// rule: Log without its file
// Whether a log of so many bytes may have records, and its file of so many bytes is a new one, which has no log.
fn is_parted(file: u64, log: u64) -> bool
    ensures { IsTrue result ↔ IsParted file log }
{
    file == 0 && log >= MIN_LOG
}

// How many bytes the file at a path has: none if there is no file. What is no regular file, or can't be looked at, counts as
// a file of some bytes, which an open finds by itself.
fn file_size<R: Files>(rt: &R, path: &str) -> u64 {
    match rt.metadata(path) {
        Ok(found) if found.is_file() => found.len(),
        Ok(_) => 1,
        Err(error) if error.kind() == ErrorKind::NotFound => 0,
        Err(_) => 1,
    }
}

// How many bytes the log beside the file at a path has. It has the name of the file that a link leads to.
fn log_size<R: Files + AllocGlobal>(rt: &R, path: &str) -> Result<u64, AllocError> {
    let log = match rt.canonicalize(rt.alloc(), path) {
        Ok(real) => format!(in rt.alloc(); "{}-wal", real.as_str())?,
        Err(_) => format!(in rt.alloc(); "{path}-wal")?,
    };
    match rt.symlink_metadata(&log) {
        Ok(found) if found.is_file() => Ok(found.len()),
        _ => Ok(0),
    }
}

/// What there is at a path.
#[derive(Clone, Copy, Drop)]
pub(crate) struct Pair {
    /// The file is a new one: missing or empty.
    pub(crate) is_new: bool,
    /// The log beside it may have records.
    pub(crate) is_logged: bool,
}

/// Looks at the file at a path and the log beside it. Nothing is opened.
///
/// Fails with `Parted` if the file is missing or empty, and the log may have records.
pub(crate) fn check_parted<R: Files + AllocGlobal>(rt: &R, path: &str) -> Result<Pair, OpenFault> {
    let file = file_size(rt, path);
    match log_size(rt, path) {
        Ok(log) if is_parted(file, log) => Err(OpenFault::Parted),
        Ok(log) => Ok(Pair {
            is_new: file == 0,
            is_logged: log >= MIN_LOG,
        }),
        Err(_) => Err(OpenFault::Failed(Cause::Memory)),
    }
}
