ghost use Rattle.std.specs.Prelude.{◌≡◌, ◌+◌};
ghost use Rattle.update_client.specs.Requests.{get_request};
ghost use Rattle.update_client.specs.Reads.{failed_reads};
ghost use Rattle.update_client.specs.Bodies.{BodyOpened};
ghost use Rattle.update_client.specs.Replies.{RequestWritten, failed_writes};

use crate::body::Body;
use crate::chunked::BLOCK;
use crate::heads::{Address, BodyLength, LinkFault, get_request};
use crate::reading::read_head;
use http_wire::{Sink, Source, send};
use std::alloc::Global;

// rule: Body that a link opens
// Reads the head of a download's reply.
fn read_opening<S: Source>(alloc: Global, source: &mut S) -> Result<Body, LinkFault>
    ensures opened { BodyOpened (S.remaining source.old) (S.remaining source.new) result }
    ensures reads { S.failures source.new ≡ S.failures source.old + failed_reads result }
    ensures writes { failed_writes result ≡ 0 }
{
    let mut held = Vec::new(alloc);
    let mut block = [0; BLOCK];
    let start = read_head(source, &mut held, &mut block)?;
    let BodyLength::Known(left) = start.body else {
        return Err(LinkFault::TransferCoding);
    };
    if start.status != 200 {
        return Err(LinkFault::Status);
    }
    Ok(Body {
        held,
        at: start.head,
        left,
    })
}

// rule: Request that a link writes
/// Requests the download at an address, and reads the head of the reply.
///
/// Errors: `Memory`, `Write`, and of the reply `Read`, those of `read_start`, `Ended` and `Status`, which say that the
/// input failed, that the head is rejected, that it isn't whole, or that its status isn't 200. A chunked body is
/// `TransferCoding`, whatever the status.
pub fn open_over<S: Source, W: Sink>(
    alloc: Global,
    source: &mut S,
    sink: &mut W,
    address: &Address<'_>,
) -> Result<Body, LinkFault>
    ensures opened { failed_writes result ≡ 0 → BodyOpened (S.remaining source.old) (S.remaining source.new) result }
    ensures written { RequestWritten (W.contents sink.old) (W.contents sink.new) (get_request address.now) result }
    ensures reads { S.failures source.new ≡ S.failures source.old + failed_reads result }
    ensures writes { W.failures sink.new ≡ W.failures sink.old + failed_writes result }
{
    let text = get_request(alloc, address)?;
    let Ok(()) = send(sink, &text) else {
        return Err(LinkFault::Write);
    };
    read_opening(alloc, source)
}
