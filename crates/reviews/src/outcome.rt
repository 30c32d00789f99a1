//! Where the clients at a release are.

ghost use Rattle.std.specs.Prelude.{◌≡◌};
ghost use Rattle.reviews.specs.Reviews.{is_stuck, outcome_by};

use crate::cause::Reason;
use payload_graph::Payload;
use quotes::Quote;

/// Where the clients of a track at a release are.
#[derive(Clone, Copy)]
pub enum Outcome {
    /// At the target.
    Here,
    /// Before a chain of the least sum of bytes to the target.
    Next {
        /// Its first payload.
        payload: Payload,
        /// The sum of the whole chain, in bytes.
        sum: u64,
    },
    /// Stuck: no chain leads to the target.
    Stuck(Reason),
}

/// Whether the clients are stuck.
pub fn is_stuck(outcome: &Outcome) -> bool
    ensures { result ≡ is_stuck outcome.now }
{
    matches!(outcome, Outcome::Stuck(_))
}

/// The outcome of a release by its quote, and by its reason if no chain leads from it.
pub(crate) fn outcome_by(reason: Reason, quote: Quote) -> Outcome
    ensures { result ≡ outcome_by reason quote }
{
    match quote {
        Quote::Here => Outcome::Here,
        Quote::Next { payload, sum } => Outcome::Next { payload, sum },
        Quote::NoChain => Outcome::Stuck(reason),
    }
}
