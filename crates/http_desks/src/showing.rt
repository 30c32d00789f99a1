// The pages of a desk.

ghost use Rattle.std.specs.Prelude.{◌≡◌, ◌+◌, Some, is_ok, if◌then◌else◌};
ghost use Rattle.http_desks.specs.declared.answering.Handled.TheVariants.{Answered};
ghost use Rattle.http_desks.specs.declared.method.Method.TheVariants.{Get};
ghost use Rattle.http_desks.specs.Replies.{Answers, Writes, empty_reply, page_reply};
ghost use Rattle.http_desks.specs.Uses.{IsPaged};

use crate::answering::Handled;
use crate::desk::Desk;
use crate::empty::send_empty;
use crate::method::Method;
use crate::page::Page;
use http_wire::{Allow, Failed, ReplyHead, Sink, Status, send_reply};

/// Writes a reply without a body, after which the connection may go on.
pub(crate) fn deny<W: Sink>(
    sink: &mut W,
    block: &mut [u8],
    status: Status,
    allow: Option<Allow>,
    closes: bool,
) -> Result<Handled, Failed>
    ensures sends { Writes (empty_reply status allow closes) (Some Answered) (W.contents sink.old) (W.contents sink.new) result }
    ensures failed { W.failures sink.new ≡ W.failures sink.old + (if is_ok result then 0 else 1) }
{
    match send_empty(sink, block, status, allow, closes) {
        Ok(()) => Ok(Handled::Answered),
        Err(error) => Err(error),
    }
}

// Writes a page.
fn send_page<W: Sink>(
    sink: &mut W,
    block: &mut [u8],
    page: &Page,
    closes: bool,
) -> Result<Handled, Failed>
    ensures sends { Writes (page_reply closes Get page.now.kind page.now.body.items) (Some Answered)
        (W.contents sink.old) (W.contents sink.new) result }
    ensures failed { W.failures sink.new ≡ W.failures sink.old + (if is_ok result then 0 else 1) }
{
    let head = ReplyHead {
        status: page.kind.status(),
        kind: page.kind.fields(),
        allow: None,
        size: page.body.len(),
        closes,
    };
    match send_reply(sink, block, &head, &page.body) {
        Ok(()) => Ok(Handled::Answered),
        Err(error) => Err(error),
    }
}

// Writes a page for a message of this method, or that it may not have it.
fn offer_page<W: Sink>(
    sink: &mut W,
    block: &mut [u8],
    page: &Page,
    method: Method,
    closes: bool,
) -> Result<Handled, Failed>
    ensures sends { Writes (page_reply closes method page.now.kind page.now.body.items) (Some Answered)
        (W.contents sink.old) (W.contents sink.new) result }
    ensures failed { W.failures sink.new ≡ W.failures sink.old + (if is_ok result then 0 else 1) }
{
    match method {
        Method::Get => send_page(sink, block, page, closes),
        Method::ForeignGet => deny(sink, block, Status::Forbidden, None, closes),
        Method::Post | Method::BrowserPost | Method::Other => deny(
            sink,
            block,
            Status::MethodNotAllowed,
            Some(Allow::Get),
            closes,
        ),
    }
}

// rule: Page of a desk
/// Asks the desk for the page of a path, and writes the reply.
pub(crate) fn show<W: Sink, D: Desk>(
    sink: &mut W,
    block: &mut [u8],
    desk: &mut D,
    path: &[u8],
    method: Method,
    body: &[u8],
    closes: bool,
) -> Result<Handled, Failed>
    ensures shown { Answers (IsPaged method path.now) D.steps (D.content_type desk.old) body.now closes
        desk.old desk.new (W.contents sink.old) (W.contents sink.new) result }
    ensures path { D.path desk.new ≡ D.path desk.old }
    ensures content_type { D.content_type desk.new ≡ D.content_type desk.old }
    ensures failed { W.failures sink.new ≡ W.failures sink.old + (if is_ok result then 0 else 1) }
{
    match desk.page(path) {
        Ok(None) => deny(sink, block, Status::NotFound, None, closes),
        Ok(Some(page)) => offer_page(sink, block, &page, method, closes),
        Err(off) => match send_empty(sink, block, Status::InternalServerError, None, true) {
            Ok(()) => Ok(Handled::Off),
            Err(error) => Err(error),
        },
    }
}
