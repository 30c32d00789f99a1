// What made a statement or an open fail.

ghost use Rattle.std.specs.Prelude.{◌≡◌};
ghost use Rattle.history.specs.Causes.{cause_of, open_fault_of};

use kept_records::{Cause, OpenFault};
use sqlite::{Error, ErrorCode};

// rule: Cause of a failure
/// Returns the cause that an error of the database names.
pub(crate) fn cause_of(error: Error) -> Cause
    ensures { result ≡ cause_of error }
{
    match error {
        Error::SqliteFailure(ErrorCode::OutOfMemory) => Cause::Memory,
        Error::SqliteFailure(ErrorCode::DiskFull) => Cause::DiskFull,
        Error::SqliteFailure(ErrorCode::SystemIoFailure) => Cause::Disk,
        Error::SqliteFailure(ErrorCode::TooBig) => Cause::TooLarge,
        Error::SqliteFailure(ErrorCode::Closed) => Cause::Closed,
        _ => Cause::Damaged,
    }
}

// rule: Cause of a failure
/// Returns the fault of an open that an error of the database names.
pub(crate) fn open_fault_of(error: Error) -> OpenFault
    ensures { result ≡ open_fault_of error }
{
    match error {
        Error::SqliteFailure(ErrorCode::NotADatabase) => OpenFault::Foreign,
        Error::SqliteFailure(ErrorCode::DatabaseBusy) => OpenFault::Busy,
        Error::SqliteFailure(ErrorCode::CannotOpen) => OpenFault::Unopened,
        other => OpenFault::Failed(cause_of(other)),
    }
}
