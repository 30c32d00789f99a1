// What a till is asked for a plan.

ghost use Rattle.std.specs.Prelude.{◌≡◌, ◌++◌, IfOk, OnErr};
ghost use Rattle.replies.specs.Replies.{IsOutcome};
ghost use Rattle.replies.specs.Asking.{AsksFirst, AsksFor, GrantsFirst, asks_for};

use crate::choices::Choice;
use mirror_ledger::Till;
use std::alloc::{AllocError, Global};
use std::sync::Wait;

// Asks for the payload that was chosen for an app, if one was.
fn ask_for<T: Till, R: Wait>(rt: &R, till: &mut T, choice: Option<Choice>) -> Option<usize>
    ensures asks { T.asks till.new ≡ T.asks till.old ++ asks_for choice result }
    ensures mirrors { T.mirrors till.new ≡ T.mirrors till.old }
    ensures outcome { IsOutcome (T.mirrors till.old) choice result }
    ensures alone { T.alone till.old
        → T.alone till.new × GrantsFirst (T.mirrors till.old) (T.asks till.old) (T.asks till.new) }
{
    match choice {
        Some(choice) => till.grant_first(rt, choice.bytes),
        None => None,
    }
}

// rule: Asks of a plan
/// Asks a till for each payload that was chosen, in order, and returns the outcomes.
///
/// After an error a first part of the plan was asked for. A till that is alone grants each ask on the
/// first mirror with room.
pub(crate) fn ask_each<T: Till, R: Wait>(
    rt: &R,
    alloc: Global,
    till: &mut T,
    plan: &[Option<Choice>],
) -> Result<Vec<Option<usize>>, AllocError>
    ensures ok { IfOk result (λ outcomes.
        AsksFor (T.mirrors till.old) plan.now outcomes.items (T.asks till.old) (T.asks till.new)) }
    ensures err { OnErr result (AsksFirst (T.mirrors till.old) plan.now (T.asks till.old) (T.asks till.new)) }
    ensures mirrors { T.mirrors till.new ≡ T.mirrors till.old }
    ensures alone { T.alone till.old
        → T.alone till.new × GrantsFirst (T.mirrors till.old) (T.asks till.old) (T.asks till.new) }
{
    let Ok(mut outcomes) = Vec::with_capacity(alloc, plan.len()) else {
        return Err(AllocError);
    };
    for choice in plan {
        let outcome = ask_for(rt, till, *choice);
        if outcomes.push(outcome).is_err() {
            return Err(AllocError);
        }
    }
    Ok(outcomes)
}
