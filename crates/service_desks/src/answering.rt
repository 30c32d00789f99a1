// What a message to a worker comes to.

ghost use Rattle.std.specs.Prelude.{◌≡◌};
ghost use Rattle.http_desks.specs.Calls.{answer_in};
ghost use Rattle.service_desks.specs.Workers.{IsAnswer};
ghost use Rattle.replies.specs.Asking.{GrantsFirst};

use crate::held_view::HeldView;
use http_desks::{Answer, DeskStatus, Off};
use mirror_ledger::Till;
use omaha_json::read_request;
use std::alloc::Global;
use std::sync::Wait;
use tallies::CountChecks;
use values::ReadError;

// rule: Desk of a worker
/// Replies to a message: reads it first, and enters an edition only for a request.
pub(crate) fn answer_by<T: Till, R: Wait, C: CountChecks>(
    rt: &R,
    alloc: Global,
    view: &mut HeldView,
    till: &mut T,
    counter: &C,
    body: &[u8],
    moment: u64,
) -> Result<Answer, Off>
    ensures answers { IsAnswer (T.mirrors till.old) (record { sight = view.old; asks = T.asks till.old }) body.now moment
        (answer_in result) (record { sight = view.new; asks = T.asks till.new }) }
    ensures mirrors { T.mirrors till.new ≡ T.mirrors till.old }
    ensures alone { T.alone till.old
        → T.alone till.new × GrantsFirst (T.mirrors till.old) (T.asks till.old) (T.asks till.new) }
{
    match read_request(alloc, body) {
        Ok(request) => match view.reply(rt, alloc, till, counter, moment, &request) {
            Ok(reply) => Ok(Answer {
                status: DeskStatus::Success,
                body: reply,
            }),
            Err(off) => Err(off),
        },
        Err(ReadError::Fault(_)) => Ok(Answer {
            status: DeskStatus::BadRequest,
            body: Vec::new(alloc),
        }),
        Err(ReadError::Memory) => Err(Off::Memory),
    }
}
