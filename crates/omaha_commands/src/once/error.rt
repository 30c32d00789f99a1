// Why there is no reply.

use std::alloc::AllocError;

/// Why there is no reply to an input.
#[derive(Clone, Copy, Debug, Drop)]
pub enum AnswerError {
    /// There is no place for a view of the edition.
    NoPlace,
    /// A view entered no edition, or another one.
    Closed,
    /// Memory ran out.
    Memory,
}

impl From<AllocError> for AnswerError {
    ghost use Rattle.std.specs.Prelude.{◌≡◌};
    ghost use Rattle.omaha_commands.specs.declared.once.error.AnswerError.TheVariants.{Memory};

    ghost from_gives = { λ _ error. error ≡ Memory };

    fn from(_refused: AllocError) -> AnswerError {
        AnswerError::Memory
    }
}
