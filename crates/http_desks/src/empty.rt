ghost use Rattle.std.specs.Prelude.{◌≡◌, ◌+◌, is_ok, if◌then◌else◌};
ghost use Rattle.http_wire.specs.Sending.{Sends};
ghost use Rattle.http_desks.specs.Replies.{empty_reply};

use http_wire::{Allow, Failed, ReplyHead, Sink, Status, send_reply};

/// Writes a reply without a body.
///
/// `block` is room for the reply, of any length. A failure finds a first part of the reply written.
pub fn send_empty<W: Sink>(
    sink: &mut W,
    block: &mut [u8],
    status: Status,
    allow: Option<Allow>,
    closes: bool,
) -> Result<(), Failed>
    ensures sends { Sends (W.contents sink.old) (W.contents sink.new) (empty_reply status allow closes) result }
    ensures failed { W.failures sink.new ≡ W.failures sink.old + (if is_ok result then 0 else 1) }
{
    let head = ReplyHead {
        status,
        kind: "",
        allow,
        size: 0,
        closes,
    };
    send_reply(sink, block, &head, b"")
}
