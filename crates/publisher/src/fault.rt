use crate::receipt::Receipt;
use catalogue::Refused;
use editions::NextError;
use std::alloc::AllocError;

/// Why a batch was not published. The published edition is then as before.
///
/// The errors are in the order in which they are looked for; `Memory` may come before any of them.
#[derive(Drop)]
pub enum PublishError {
    /// Another edition than the batch's base is published: this one. `open` has no base.
    Stale(Receipt),
    /// An edit of the batch was rejected.
    Refused(Refused),
    /// The published edition holds 4096 batches, as many as it may. `open` publishes the first.
    HistoryFull,
    /// There is no place for one of the readers. Only `open` has readers.
    NoPlace,
    /// An allocation failed.
    Memory,
}

impl From<NextError> for PublishError {
    ghost use Rattle.std.specs.Prelude.{◌≡◌};
    ghost use Rattle.publisher.specs.Errors.{publish_error_of};

    ghost from_gives = { λ error e. e ≡ publish_error_of error };

    fn from(error: NextError) -> PublishError {
        match error {
            NextError::Refused(refused) => PublishError::Refused(refused),
            NextError::HistoryFull => PublishError::HistoryFull,
            NextError::Memory => PublishError::Memory,
        }
    }
}

impl From<AllocError> for PublishError {
    ghost use Rattle.std.specs.Prelude.{◌≡◌};
    ghost use Rattle.publisher.specs.declared.fault.PublishError.TheVariants.{Memory};

    ghost from_gives = { λ _ e. e ≡ Memory };

    fn from(_refused: AllocError) -> PublishError {
        PublishError::Memory
    }
}
