//! Why jobs with tills come to nothing.

use std::alloc::AllocError;

/// Why jobs with tills come to nothing.
#[derive(Debug, Drop)]
pub enum RunError {
    /// An ask was rejected for which a mirror has room, by its total at the end and its first budget.
    RoomLeft,
    /// Memory ran out.
    Memory,
}

impl From<AllocError> for RunError {
    ghost use Rattle.std.specs.Prelude.{◌≡◌};
    ghost use Rattle.mirror_ledger.specs.declared.run_error.RunError.TheVariants.{Memory};

    ghost from_gives = { λ _ error. error ≡ Memory };

    fn from(_refused: AllocError) -> RunError {
        RunError::Memory
    }
}
