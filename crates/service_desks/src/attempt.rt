// What an attempt to keep a script or a raise comes to.

ghost use Rattle.std.specs.Prelude.{◌≡◌, ◌++◌, ◌∷◌, [], false, IsOk, MatchResult, Some};
ghost use Rattle.http_desks.specs.Calls.{answer_in};
ghost use Rattle.kept_records.specs.Keeping.{record_of};
ghost use Rattle.service_desks.specs.Attempts.{ComesTo, IsUnkeptAttempt, attempt_in, unkept_by};

use crate::lines::{Line, reply_with};
use http_desks::{Answer, Off};
use kept_records::{AppendFault, Cause, Kind, Records};
use std::alloc::Global;

/// What a script or a raise comes to.
#[derive(Drop)]
pub(crate) enum Attempt {
    /// A reply.
    Replied(Answer),
    /// Another server's record has its number, and nothing was kept.
    Overtaken,
}

/// Why a script or a raise isn't kept.
#[derive(Clone, Copy, Drop)]
pub(crate) enum Unkept {
    /// Another server's record has its number.
    Taken,
    /// No server of the history replies, and it isn't kept.
    Unreachable,
    /// No server of the history replies, and it may be kept.
    InDoubt,
    /// The history failed.
    Closed,
}

fn unkept_by(fault: AppendFault) -> Unkept
    ensures { result ≡ unkept_by fault }
{
    match fault {
        AppendFault::Taken => Unkept::Taken,
        AppendFault::Failed(Cause::Unreachable(_)) => Unkept::Unreachable,
        AppendFault::Unknown(Cause::Unreachable(_)) => Unkept::InDoubt,
        _ => Unkept::Closed,
    }
}

/// Keeps a script or a raise.
pub(crate) fn keep<K: Records>(
    alloc: Global,
    records: &mut K,
    kind: Kind,
    bytes: &[u8],
) -> Result<(), Unkept>
    ensures kept { MatchResult result
        (λ _. K.kept records.new ≡ K.kept records.old ++ record_of kind bytes.now ∷ [])
        (λ _. K.kept records.new ≡ K.kept records.old) }
    ensures succeeds { K.lasts records.old ≡ false → IsOk result }
    ensures first { K.first records.new ≡ K.first records.old }
    ensures lasts { K.lasts records.new ≡ K.lasts records.old }
{
    match records.append(alloc, kind, bytes) {
        Ok(()) => Ok(()),
        Err(fault) => Err(unkept_by(fault)),
    }
}

/// The attempt of a reply.
pub(crate) fn replied(reply: Result<Answer, Off>) -> Result<Attempt, Off>
    ensures { attempt_in result ≡ Some (answer_in reply) }
{
    match reply {
        Ok(reply) => Ok(Attempt::Replied(reply)),
        Err(off) => Err(off),
    }
}

/// What an attempt comes to whose script or raise isn't kept.
pub(crate) fn give_up(alloc: Global, unkept: Unkept) -> Result<Attempt, Off>
    ensures unkept { IsUnkeptAttempt (attempt_in result) }
    ensures by { ComesTo unkept (attempt_in result) }
{
    match unkept {
        Unkept::Taken => Ok(Attempt::Overtaken),
        Unkept::Unreachable => replied(reply_with(alloc, &Line::Unreachable)),
        Unkept::InDoubt => replied(reply_with(alloc, &Line::InDoubt)),
        Unkept::Closed => Err(Off::Closed),
    }
}
