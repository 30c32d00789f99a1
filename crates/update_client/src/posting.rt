ghost use Rattle.std.specs.Prelude.{◌≡◌, ◌+◌, ◌≤◌, ◌<◌, drop, length, vec_len};
ghost use Rattle.update_client.specs.Requests.{post_request};
ghost use Rattle.update_client.specs.declared.heads.length.BodyLength.TheVariants as lengths;
ghost use Rattle.update_client.specs.Reads.{failed_reads};
ghost use Rattle.update_client.specs.Posts.{PostSent, ReplyAwaited, after_failed_write};
ghost use Rattle.update_client.specs.Replies.{BodyRead, ReplyRead, RestRead, accepted_reply, failed_writes};

use crate::chunked::{BLOCK, read_chunked, read_more};
use crate::heads::{BodyLength, LinkFault, Post, Start, post_request};
use crate::reading::read_head;
use http_wire::{Sink, Source, send};
use std::alloc::Global;

/// A reply with its body.
#[derive(Debug, Drop)]
pub struct Reply {
    /// The status, such as 200.
    pub status: u16,
    /// The body.
    pub body: Vec<u8>,
}

impl Reply {
    /// Returns a reply with the status 200 unchanged; `Status` for any other.
    pub fn error_for_status(self) -> Result<Reply, LinkFault>
        ensures { result ≡ accepted_reply self }
    {
        if self.status != 200 {
            return Err(LinkFault::Status);
        }
        Ok(self)
    }
}

// Reads until the body has that size.
fn read_rest<S: Source>(
    source: &mut S,
    body: &mut Vec<u8>,
    block: &mut [u8],
    size: usize,
) -> Result<(), LinkFault>
    requires fits { vec_len body.old ≤ size }
    requires block { 0 < length block.old }
    ensures rest { RestRead (S.remaining source.old) (S.remaining source.new) body.old.items body.new.items size result }
    ensures failed { S.failures source.new ≡ S.failures source.old + failed_reads result }
{
    while body.len() < size {
        if read_more(source, body, block, size - body.len())? == 0 {
            return Err(LinkFault::Ended);
        }
    }
    Ok(())
}

// Reads a body of that size, whose first bytes wait.
fn read_known<S: Source>(
    alloc: Global,
    source: &mut S,
    waiting: &[u8],
    block: &mut [u8],
    size: u64,
    limit: u64,
) -> Result<Vec<u8>, LinkFault>
    requires { 0 < length block.old }
    ensures read { BodyRead limit (lengths.Known size) (S.remaining source.old) (S.remaining source.new) waiting.now result }
    ensures failed { S.failures source.new ≡ S.failures source.old + failed_reads result }
{
    if size > limit {
        return Err(LinkFault::Long);
    }
    let size = size as usize;
    let mut body = Vec::from_slice(alloc, &waiting[..waiting.len().min(size)])?;
    read_rest(source, &mut body, block, size)?;
    Ok(body)
}

// Reads the body after a head; the bytes that are held begin with the head.
fn read_body<S: Source>(
    alloc: Global,
    source: &mut S,
    held: Vec<u8>,
    start: Start,
    block: &mut [u8],
    limit: u64,
) -> Result<Vec<u8>, LinkFault>
    requires head { start.head ≤ vec_len held }
    requires block { 0 < length block.old }
    ensures read { BodyRead limit start.body (S.remaining source.old) (S.remaining source.new) (drop start.head held.items) result }
    ensures failed { S.failures source.new ≡ S.failures source.old + failed_reads result }
{
    match start.body {
        BodyLength::Known(size) => read_known(
            alloc,
            source,
            &held[start.head..],
            block,
            size,
            limit,
        ),
        BodyLength::Chunked => read_chunked(alloc, source, held, start.head, block, limit),
    }
}

// rule: Reply that a link reads
// Reads the reply to a post. Memory grows as its bytes come, whatever length is announced.
fn read_reply<S: Source>(alloc: Global, source: &mut S, limit: u64) -> Result<Reply, LinkFault>
    ensures read { ReplyRead limit (S.remaining source.old) (S.remaining source.new) result }
    ensures reads { S.failures source.new ≡ S.failures source.old + failed_reads result }
    ensures writes { failed_writes result ≡ 0 }
{
    let mut held = Vec::new(alloc);
    let mut block = [0; BLOCK];
    let start = read_head(source, &mut held, &mut block)?;
    let body = read_body(alloc, source, held, start, &mut block, limit)?;
    Ok(Reply {
        status: start.status,
        body,
    })
}

// What a reply comes to after a failed write: a whole reply is one, and every fault but `Memory` is that of the write.
fn after_failed_write(reply: Result<Reply, LinkFault>) -> Result<Reply, LinkFault>
    ensures { result ≡ after_failed_write reply }
{
    match reply {
        Ok(reply) => Ok(reply),
        Err(LinkFault::Memory) => Err(LinkFault::Memory),
        Err(_) => Err(LinkFault::Write),
    }
}

// rule: Post whose reply comes early
// rule: Request that a link writes
/// Posts, and returns the reply, whatever its status; its body may have as many bytes as the limit.
///
/// If a write fails, the reply is read all the same: a server may reply before it has read the whole request, and close
/// the connection.
///
/// The body may be chunked. Errors: `Memory`; `Write`, if a write failed and there is no whole reply; and of the reply
/// `Read`, those of `read_start`, `Long`, `Ended` and those of `read_chunked`. They say that the input failed, that the
/// head is rejected, that more bytes are announced than the limit, that the reply isn't whole, or that its chunks are
/// rejected.
pub fn post_over<S: Source, W: Sink>(
    alloc: Global,
    source: &mut S,
    sink: &mut W,
    post: &Post<'_>,
    limit: u64,
) -> Result<Reply, LinkFault>
    ensures awaited { ReplyAwaited limit (S.remaining source.old) (S.remaining source.new) (S.failures source.old) (S.failures source.new) result }
    ensures sent { PostSent (W.contents sink.old) (W.contents sink.new) (W.failures sink.old) (W.failures sink.new) (post_request post.now) result }
{
    let text = post_request(alloc, post)?;
    let sent = send(sink, &text);
    let reply = read_reply(alloc, source, limit);
    match sent {
        Ok(()) => reply,
        Err(_) => after_failed_write(reply),
    }
}
