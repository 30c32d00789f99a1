// The reply to a whole message of a connection, or to bytes that no message begins with.

ghost use Rattle.std.specs.Prelude.{◌≡◌, ◌<◌, ◌==◌, ◌||◌, [], None, true, false, IfOk, IfSome};
ghost use Rattle.http_desks.specs.Replies.{empty_reply};
ghost use Rattle.http_desks.specs.Uses.{IsUse};
ghost use Rattle.http_sessions.specs.Readings.{IsFound};
ghost use Rattle.http_sessions.specs.Leaves.{AtOnce, IsDone, IsNew, IsRejection, IsStarted, Leaves};
ghost use Rattle.http_sessions.specs.Talks.{failure_reply};

use crate::buffers::Buffers;
use crate::foreseeing::Found;
use crate::session::MAX_MESSAGES;
use crate::talks::devices::Made;
use crate::talks::outcome::{After, Opened, Started};
use crate::talks::talk::Sending;
use http_desks::{
    Begun, Clock, Declared, Desk, Handled, Packages, Request, Transfer, begin, send_empty,
};
use http_wire::Status;
use std::alloc::{AllocError, Global};
use streams::Trace;

// How many bytes of a reply there is room for before the desk is called, so that a line as `edition 2` takes no more memory.
const SHORT: usize = 512;

// Whether the connection ends after the reply to a message, after so many others.
fn closes_after(closes: bool, begun: u32) -> bool
    requires { begun < 1000 }
    ensures closes { result ≡ (closes || (begun == 999)) }
    ensures last { result ≡ false → begun < 999 }
{
    closes || begun == MAX_MESSAGES - 1
}

// The reply without a body, after which the connection ends, or `None` if memory runs out.
fn last_reply(alloc: Global, room: &mut Buffers, status: Status) -> Option<Vec<u8>>
    ensures { IfSome result (λ made. made.items ≡ empty_reply status None true) }
{
    let mut sink = Made {
        bytes: Vec::new(alloc),
        failures: Trace::new(),
    };
    match send_empty(&mut sink, room.block(), status, None, true) {
        Ok(()) => Some(sink.bytes),
        Err(_) => None,
    }
}

// The memory without which the desk isn't called.
#[derive(Drop)]
struct Ready {
    // the reply if no more is found
    failure: Vec<u8>,
    // what is kept after the message
    kept: Vec<u8>,
    // room for a short reply
    made: Vec<u8>,
}

// rule: Reply without memory
// Takes the memory without which the desk isn't called, or returns `None` if there is too little.
fn make_ready(alloc: Global, room: &mut Buffers, left: &[u8]) -> Option<Ready>
    ensures failure { IfSome result (λ ready. ready.failure.items ≡ failure_reply) }
    ensures kept { IfSome result (λ ready. ready.kept.items ≡ left.now) }
    ensures made { IfSome result (λ ready. ready.made.items ≡ []) }
{
    let failure = last_reply(alloc, room, Status::InternalServerError)?;
    let Ok(kept) = Vec::from_slice(alloc, left) else {
        return None;
    };
    match Vec::with_capacity(alloc, SHORT) {
        Ok(made) => Some(Ready {
            failure,
            kept,
            made,
        }),
        Err(_) => None,
    }
}

// What is left after a reply that is written.
fn done_after(begun: u32, handled: Handled, closes: bool, kept: Vec<u8>, made: Vec<u8>) -> After
    requires { closes ≡ false → begun < 999 }
    ensures { IsDone begun handled closes kept.items made.items result }
{
    if closes || handled != Handled::Answered {
        return After::Over(made);
    }
    After::Open(Opened {
        begun: begun + 1,
        kept,
        made,
    })
}

// A package of this name, of which no block was made.
fn sending_of(
    alloc: Global,
    name: &[u8],
    declared: &Declared,
    closes: bool,
) -> Result<Sending, AllocError>
    ensures { IfOk result (IsNew name.now declared.now closes) }
{
    let name = Vec::from_slice(alloc, name)?;
    Ok(Sending {
        transfer: Transfer::new(declared.size),
        name,
        declared: *declared,
        closes,
    })
}

// What is left after the head of a package.
fn started_after(begun: u32, sending: Sending, kept: Vec<u8>, made: Vec<u8>) -> After
    requires few { begun < 1000 }
    requires last { sending.closes ≡ false → begun < 999 }
    ensures { IsStarted begun sending kept.items made.items result }
{
    let begun = if sending.closes { begun } else { begun + 1 };
    After::Sends(Started {
        sending,
        begun,
        kept,
        made,
    })
}

// rule: Session over a port
// rule: Reply without memory
// Replies to the message at the front of what is kept, after so many replies; of a package with bytes it makes the head.
// Without memory for another reply the desk isn't called.
pub(crate) fn reply<D: Desk, Z: Packages + Clock>(
    alloc: Global,
    room: &mut Buffers,
    site: &Z,
    begun: u32,
    kept: &[u8],
    found: &Found<'_>,
    desk: &mut D,
) -> After
    requires few { begun < 1000 }
    requires found { IsFound kept.now found.now }
    ensures leaves { Leaves (AtOnce (IsUse (D.path desk.old) (Z.tells site.now) (Z.sizes site.now) (Z.reads site.now)))
        D.steps (D.content_type desk.old) begun kept.now desk.old desk.new result }
    ensures path { D.path desk.new ≡ D.path desk.old }
    ensures content_type { D.content_type desk.new ≡ D.content_type desk.old }
{
    let Some(ready) = make_ready(alloc, room, &kept[found.length..]) else {
        return After::Lost;
    };
    let closes = closes_after(found.request.closes, begun);
    let request = Request {
        closes,
        ..found.request
    };
    let Ready {
        failure,
        kept,
        made,
    } = ready;
    let mut sink = Made {
        bytes: made,
        failures: Trace::new(),
    };
    match begin(&mut sink, room.block(), desk, site, &request) {
        Ok(Begun::Done(handled)) => done_after(begun, handled, closes, kept, sink.bytes),
        Ok(Begun::Sends(name, declared)) => match sending_of(alloc, name, &declared, closes) {
            Ok(sending) => started_after(begun, sending, kept, sink.bytes),
            Err(_) => After::Failed(failure),
        },
        Err(_) => After::Failed(failure),
    }
}

// rule: Rejection of a message
// Makes the reply that rejects what is kept.
pub(crate) fn reject(alloc: Global, room: &mut Buffers, status: Status) -> After
    ensures { IsRejection status result }
{
    match last_reply(alloc, room, status) {
        Some(made) => After::Over(made),
        None => After::Lost,
    }
}
