ghost use Rattle.std.specs.Prelude.{Some};
ghost use Rattle.editions.specs.FaultStrings.{error_string};

use catalogue::Refused;
use std::alloc::{AllocError, AllocFailed};
use std::error::Error;
use std::fmt;
use values::ReadError;

/// Why an edition has no next one with a batch.
///
/// The errors are in the order in which they are looked for; `Memory` may come before any of them.
#[derive(Clone, Copy, Debug)]
pub enum NextError {
    /// An edit of the batch was rejected.
    Refused(Refused),
    /// The edition holds 4096 batches, as many as it may.
    HistoryFull,
    /// An allocation failed.
    Memory,
}

// rule: Printed error of a batch
impl fmt::Display for NextError {
    ghost output = { λ e. Some (error_string e) };

    fn fmt<W: fmt::Write>(&self, f: &mut fmt::Formatter<W>) -> fmt::Result {
        match self {
            NextError::Refused(refused) => write!(f, "{refused}"),
            NextError::HistoryFull => write!(f, "history full"),
            NextError::Memory => write!(f, "memory"),
        }
    }
}

impl Error for NextError {}

impl From<ReadError<Refused>> for NextError {
    ghost use Rattle.std.specs.Prelude.{◌≡◌};
    ghost use Rattle.editions.specs.NextErrors.{next_error_of};

    ghost from_gives = { λ refused e. e ≡ next_error_of refused };

    fn from(refused: ReadError<Refused>) -> NextError {
        match refused {
            ReadError::Fault(refused) => NextError::Refused(refused),
            ReadError::Memory => NextError::Memory,
        }
    }
}

impl From<AllocError> for NextError {
    ghost use Rattle.std.specs.Prelude.{◌≡◌};
    ghost use Rattle.editions.specs.declared.fault.NextError.TheVariants.{Memory};

    ghost from_gives = { λ _ e. e ≡ Memory };

    fn from(_refused: AllocError) -> NextError {
        NextError::Memory
    }
}

impl<T: Drop> From<AllocFailed<T>> for NextError {
    ghost use Rattle.std.specs.Prelude.{◌≡◌};
    ghost use Rattle.editions.specs.declared.fault.NextError.TheVariants.{Memory};

    ghost from_gives = { λ _ e. e ≡ Memory };

    fn from(_refused: AllocFailed<T>) -> NextError {
        NextError::Memory
    }
}
