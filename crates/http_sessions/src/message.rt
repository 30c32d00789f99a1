ghost use Rattle.std.specs.Prelude.{◌≡◌, ◌+◌, ◌≤◌, length, take, IfOk, is_ok, if◌then◌else◌};
ghost use Rattle.httparse.specs.Grammar.{RequestHead};
ghost use Rattle.httparse.specs.Spans.{IsRequestAt, IsRequestOf};
ghost use Rattle.http_wire.specs.Heads.{IsWholeWithin};
ghost use Rattle.http_sessions.specs.Readings.{IsPlanOf, Reads};
ghost use Rattle.http_sessions.specs.Stops.{end_with};

use crate::ends::End;
use http_desks::Method;
use http_wire::{
    Failed, Head, Source, Status, Window, framing, is_for_another, is_from_browser, read_body,
    read_head, wants_close,
};
use httparse::spans::{HeaderSpan, RequestSpans};

// The most fields that a head may have.
const MAX_SHOWN: usize = 64;

// What a head says of its message.
#[derive(Clone, Copy, Drop)]
pub(crate) struct Plan {
    // the length of the body
    pub(crate) size: usize,
    pub(crate) method: Method,
    // whether the head asks for the end of the connection
    pub(crate) closes: bool,
    // the length of the target
    pub(crate) target: usize,
}

// What a connection's bytes begin with.
#[derive(Clone, Copy, Drop)]
pub(crate) enum Message {
    // A whole message, whose target and body are in the buffers.
    Whole(Plan),
    // Bytes that can't begin a message.
    Rejected(Status),
    // Less than a message: the input has ended.
    Ended(End),
}

// rule: Length of a message
// What the head says, or the status that rejects its message.
pub(crate) fn examine(
    bytes: &[u8],
    fields: &[HeaderSpan],
    spans: &RequestSpans,
) -> Result<Plan, Status>
    requires { IsWholeWithin bytes.now fields.now spans.now }
    ensures fits { IfOk result (λ plan. plan.size ≤ 262144) }
    ensures plan { (head : RequestHead) → IsRequestAt bytes.now fields.now spans.now head → IsPlanOf head result }
{
    let shown = &fields[..spans.headers];
    if shown.len() > MAX_SHOWN {
        return Err(Status::BadRequest);
    }
    let method = spans.method.of(bytes);
    match framing(method, bytes, shown) {
        Ok(size) => Ok(Plan {
            size: size as usize,
            method: Method::of(
                method,
                is_from_browser(bytes, shown),
                is_for_another(bytes, shown),
            ),
            closes: wants_close(spans.version, bytes, shown),
            target: 0,
        }),
        Err(status) => Err(status),
    }
}

// The end of the input, with these bytes left.
fn end_of_input(left: &[u8]) -> End
    ensures { result ≡ end_with left.now }
{
    if left.is_empty() {
        End::Finished
    } else {
        End::Unfinished
    }
}

// Copies the bytes to the front of the cells, and returns how many.
fn keep(cells: &mut [u8], bytes: &[u8]) -> usize
    requires { length bytes.now ≤ length cells.old }
    ensures count { result ≡ length bytes.now }
    ensures kept { take result cells.new ≡ bytes.now }
{
    cells[..bytes.len()].copy_from_slice(bytes);
    bytes.len()
}

// rule: Messages of a connection
// Reads the body of the message whose head is at the front of the window.
fn take_message<S: Source>(
    source: &mut S,
    window: &mut Window,
    fields: &[HeaderSpan],
    spans: &RequestSpans,
    target: &mut [u8],
    body: &mut [u8],
) -> Result<Message, Failed>
    requires head { IsRequestOf window.old fields.now spans.now }
    requires within { IsWholeWithin window.old fields.now spans.now }
    requires targets { length target.old ≡ 16384 }
    requires bodies { length body.old ≡ 262144 }
    ensures reads { Reads (S.remaining source.old) (S.remaining source.new) window.old window.new target.new body.new result }
    ensures failed { S.failures source.new ≡ S.failures source.old + (if is_ok result then 0 else 1) }
{
    let plan = match examine(window.bytes(), fields, spans) {
        Ok(plan) => plan,
        Err(status) => return Ok(Message::Rejected(status)),
    };
    let count = keep(target, spans.path.of(window.bytes()));
    window.discard(spans.len);
    match read_body(source, window, &mut body[..plan.size]) {
        Ok(true) => Ok(Message::Whole(Plan {
            target: count,
            ..plan
        })),
        Ok(false) => Ok(Message::Ended(End::Unfinished)),
        Err(error) => Err(error),
    }
}

// rule: Messages of a connection
// Reads one message, first from the window.
pub(crate) fn read_message<S: Source>(
    source: &mut S,
    window: &mut Window,
    fields: &mut [HeaderSpan],
    target: &mut [u8],
    body: &mut [u8],
) -> Result<Message, Failed>
    requires fields { length fields.old ≡ 5461 }
    requires targets { length target.old ≡ 16384 }
    requires bodies { length body.old ≡ 262144 }
    ensures reads { Reads (S.remaining source.old) (S.remaining source.new) window.old window.new target.new body.new result }
    ensures failed { S.failures source.new ≡ S.failures source.old + (if is_ok result then 0 else 1) }
{
    let head = read_head(source, window, fields);
    let left = window.bytes();
    match head {
        Ok(Head::Whole(spans)) => take_message(source, window, fields, &spans, target, body),
        Ok(Head::Ended) => Ok(Message::Ended(end_of_input(left))),
        Ok(Head::Bad) => Ok(Message::Rejected(Status::BadRequest)),
        Ok(Head::Long) => Ok(Message::Rejected(Status::FieldsTooLarge)),
        Err(error) => Err(error),
    }
}
