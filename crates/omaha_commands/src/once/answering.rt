// The reply to one input, by a view of its own of the one edition, over books that are opened for it.

ghost use Rattle.std.specs.Prelude.{◌≡◌, ◌∷◌, [], true, List, IfOk, Ok};
ghost use Rattle.catalogue.specs.Histories.{History};
ghost use Rattle.mirror_ledger.specs.Asks.{Ask};
ghost use Rattle.publisher.specs.Sights.{fresh};
ghost use Rattle.omaha_commands.specs.Answering.{Answers, IsRepliedAlone, RepliesFor};

use crate::once::error::AnswerError;
use editions::Edition;
use http_desks::Off;
use mirror_ledger::{Till, Work, work_with_tills};
use omaha_json::{Request, RequestFault, read_request};
use publisher::{Press, PublishError, View, open_edition};
use service_desks::{HeldView, Mirrors, Service};
use std::alloc::Global;
use std::sync::Wait;
use tallies::Uncounted;
use values::ReadError;

// The reply to one request by the till of one worker.
#[derive(Drop)]
struct OneReply<'a> {
    alloc: Global,
    view: HeldView,
    moment: u64,
    request: &'a Request,
}

impl<R: Wait> Work<R> for OneReply<'_> {
    type End = Result<Vec<u8>, Off>;

    ghost comes_to = { λ old new mirrors workers end. (asks : List Ask) → workers ≡ asks ∷ []
        → IfOk end (λ reply. IsRepliedAlone mirrors old.view old.request.now old.moment asks reply.items new.view) };

    fn work<T: Till + Send + Drop>(&mut self, rt: &R, tills: &mut Vec<T>) -> Result<Vec<u8>, Off> {
        let Some(mut till) = tills.pop() else {
            return Err(Off::Memory);
        };
        let reply = self.view.reply(
            rt,
            self.alloc,
            &mut till,
            &Uncounted,
            self.moment,
            self.request,
        );
        if tills.push(till).is_err() {
            unreachable!()
        }
        reply
    }
}

// Publishes an edition, with one view.
fn open_one<R: Wait>(rt: &R, alloc: Global, edition: Edition) -> Result<(Press, View), AnswerError>
    ensures view { IfOk result (λ made. made.1 ≡ fresh edition) }
{
    match open_edition(rt, alloc, edition, 1) {
        Ok((press, views)) => {
            let mut views = views;
            match views.pop() {
                Some(view) => Ok((press, view)),
                None => unreachable!(),
            }
        }
        Err(PublishError::NoPlace) => Err(AnswerError::NoPlace),
        Err(PublishError::Memory) => Err(AnswerError::Memory),
        Err(_) => unreachable!(),
    }
}

// The reply of a view, if it is from the edition that the view had seen.
fn replied(reply: Result<Vec<u8>, Off>, is_same: bool) -> Result<Vec<u8>, AnswerError>
    ensures ok { IfOk result (λ text. (reply ≡ Ok text) × (is_same ≡ true)) }
{
    match reply {
        Ok(text) => {
            if is_same {
                Ok(text)
            } else {
                Err(AnswerError::Closed)
            }
        }
        Err(Off::Closed) => Err(AnswerError::Closed),
        Err(Off::Memory) => Err(AnswerError::Memory),
    }
}

// Replies to a request from the edition that a view has seen last.
fn reply_by<R: Wait>(
    rt: &R,
    alloc: Global,
    mirrors: Mirrors,
    view: View,
    moment: u64,
    request: &Request,
) -> Result<Vec<u8>, AnswerError>
    ensures ok { IfOk result (λ reply. (history : History) → view ≡ fresh history
        → RepliesFor history mirrors request.now moment reply.items) }
{
    let number = view.seen();
    let mut job = OneReply {
        alloc,
        view: HeldView::new(view),
        moment,
        request,
    };
    let (reply, _totals) = work_with_tills(rt, alloc, mirrors.into_vec(), 1, &mut job)?;
    let OneReply { view, .. } = job;
    let is_same = view.into_view().seen() == number;
    replied(reply, is_same)
}

// Replies to an input from the edition that a view has seen last, or finds its fault.
fn answer_by<R: Wait>(
    rt: &R,
    alloc: Global,
    mirrors: Mirrors,
    view: View,
    moment: u64,
    input: &[u8],
) -> Result<Result<Vec<u8>, RequestFault>, AnswerError>
    ensures { (history : History) → view ≡ fresh history → Answers (record { edition = history; mirrors = mirrors }) moment input.now result }
{
    match read_request(alloc, input) {
        Ok(request) => match reply_by(rt, alloc, mirrors, view, moment, &request) {
            Ok(reply) => Ok(Ok(reply)),
            Err(error) => Err(error),
        },
        Err(ReadError::Fault(fault)) => Ok(Err(fault)),
        Err(ReadError::Memory) => Err(AnswerError::Memory),
    }
}

// rule: Reply of the program
/// Replies to an input from a service, at a time in seconds since 1 January 1970 UTC.
///
/// Publishes the service's edition to a view of its own, and opens books of the mirrors' budgets for this one input,
/// with nothing granted yet. Returns the reply to the request that the input is, and nothing else; or the input's
/// first fault, as `omaha_json::read_request` does. A payload is offered from the first mirror whose budget has room
/// for it beside the payloads of the apps before it, and is `error-internal` if none has. It takes the service, since
/// what its mirrors granted isn't kept. Fails with `NoPlace` before it reads the input, and with `Closed` if the view
/// doesn't enter the edition. It may wait for a lock, though nothing else has it.
pub fn answer<R: Wait>(
    rt: &R,
    alloc: Global,
    service: Service,
    moment: u64,
    input: &[u8],
) -> Result<Result<Vec<u8>, RequestFault>, AnswerError>
    ensures { Answers service moment input.now result }
{
    let Service { edition, mirrors } = service;
    let (press, view) = open_one(rt, alloc, edition)?;
    let answered = answer_by(rt, alloc, mirrors, view, moment, input);
    press.end(rt);
    answered
}
