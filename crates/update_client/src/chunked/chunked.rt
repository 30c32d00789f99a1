ghost use Rattle.std.specs.Prelude.{◌≡◌, ◌+◌, ◌-◌, ◌<◌, ◌≤◌, OnOk, drop, length, vec_len};
ghost use Rattle.update_client.specs.Failures.{ChunkedRead};
ghost use Rattle.update_client.specs.PieceReads.{ByteAwaited, ChunkRead, ContentRead};
ghost use Rattle.update_client.specs.Reads.{failed_reads};

use crate::chunked::piece::{Piece, read_piece};
use crate::chunked::waiting::Waiting;
use crate::heads::LinkFault;
use http_wire::Source;
use std::alloc::Global;

// Reads if no byte waits.
fn await_byte<S: Source>(
    source: &mut S,
    waiting: &mut Waiting,
    block: &mut [u8],
) -> Result<(), LinkFault>
    requires { 0 < length block.old }
    ensures some { OnOk result (0 < length waiting.new) }
    ensures read { ByteAwaited (S.remaining source.old) (S.remaining source.new) waiting.old waiting.new result }
    ensures failed { S.failures source.new ≡ S.failures source.old + failed_reads result }
    ensures block { length block.new ≡ length block.old }
{
    if waiting.bytes().is_empty() && waiting.fill(source, block)? == 0 {
        return Err(LinkFault::Ended);
    }
    Ok(())
}

// Moves that many bytes to the end of the body.
fn read_content<S: Source>(
    source: &mut S,
    waiting: &mut Waiting,
    body: &mut Vec<u8>,
    block: &mut [u8],
    size: usize,
) -> Result<(), LinkFault>
    requires { 0 < length block.old }
    ensures read { ContentRead size (S.remaining source.old) (S.remaining source.new) waiting.old waiting.new body.old.items body.new.items result }
    ensures failed { S.failures source.new ≡ S.failures source.old + failed_reads result }
    ensures block { length block.new ≡ length block.old }
{
    let mut left = size;
    while left > 0 {
        await_byte(source, waiting, block)?;
        let count = waiting.bytes().len().min(left);
        body.extend_from_slice(&waiting.bytes()[..count])?;
        waiting.discard(count);
        left -= count;
    }
    Ok(())
}

// Reads a chunk, and adds its bytes to the body. Returns `false` once it has read the line of the last one.
fn read_chunk<S: Source>(
    source: &mut S,
    waiting: &mut Waiting,
    body: &mut Vec<u8>,
    block: &mut [u8],
    limit: u64,
) -> Result<bool, LinkFault>
    requires block { 0 < length block.old }
    requires room { vec_len body.old ≤ limit }
    ensures read { ChunkRead limit (S.remaining source.old) (S.remaining source.new) waiting.old waiting.new body.old.items body.new.items result }
    ensures failed { S.failures source.new ≡ S.failures source.old + failed_reads result }
    ensures block { length block.new ≡ length block.old }
{
    let size = read_piece(Piece::Line, source, waiting, block)?;
    if size == 0 {
        return Ok(false);
    }
    if size > limit - body.len() as u64 {
        return Err(LinkFault::Long);
    }
    read_content(source, waiting, body, block, size as usize)?;
    read_piece(Piece::End, source, waiting, block)?;
    Ok(true)
}

// rule: Chunked body
// rule: Chunked body that is rejected
/// Reads a chunked body, and returns the bytes of its chunks, at most `limit`.
///
/// Its first bytes are those that are held, from `at` on. Memory grows as bytes come; besides those of the body, about
/// two blocks are kept. Errors: `Memory`; `Read`, if a read failed; `Ended`, if the input ended within the body; `Long`,
/// as soon as the chunks that were announced have more bytes than `limit`; `BadChunk`, `LongChunkLine`, `BadTrailer` and
/// `LongTrailer`.
pub fn read_chunked<S: Source>(
    alloc: Global,
    source: &mut S,
    held: Vec<u8>,
    at: usize,
    block: &mut [u8],
    limit: u64,
) -> Result<Vec<u8>, LinkFault>
    requires within { at ≤ vec_len held }
    requires block { 0 < length block.old }
    ensures read { ChunkedRead limit (S.remaining source.old) (S.remaining source.new) (drop at held.items) result }
    ensures failed { S.failures source.new ≡ S.failures source.old + failed_reads result }
{
    let mut waiting = Waiting::new(held, at);
    let mut body = Vec::new(alloc);
    'chunks: loop {
        if !read_chunk(source, &mut waiting, &mut body, block, limit)? {
            break;
        }
    }
    read_piece(Piece::Trailer, source, &mut waiting, block)?;
    Ok(body)
}
