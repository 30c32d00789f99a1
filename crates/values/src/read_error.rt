use std::alloc::{AllocError, AllocFailed};

/// Why a reader gave no value: a fault of what it read, or out of memory.
#[derive(Clone, Copy, Drop)]
pub enum ReadError<F> {
    /// An allocation failed.
    Memory,
    /// The fault of what was read.
    Fault(F),
}

impl<F> From<AllocError> for ReadError<F> {
    ghost use Rattle.std.specs.Prelude.{◌≡◌};
    ghost use Rattle.values.specs.declared.read_error.ReadError.TheVariants.{Memory};

    ghost from_gives = { λ _ e. e ≡ Memory };

    fn from(_refused: AllocError) -> ReadError<F> {
        ReadError::Memory
    }
}

impl<F, T: Drop> From<AllocFailed<T>> for ReadError<F> {
    ghost use Rattle.std.specs.Prelude.{◌≡◌};
    ghost use Rattle.values.specs.declared.read_error.ReadError.TheVariants.{Memory};

    ghost from_gives = { λ _ e. e ≡ Memory };

    fn from(_refused: AllocFailed<T>) -> ReadError<F> {
        ReadError::Memory
    }
}
