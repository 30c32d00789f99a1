ghost use Rattle.std.specs.Prelude.{◌≡◌, ◌+◌, ◌<◌, length};
ghost use Rattle.update_client.specs.Pieces.{PieceFound};
ghost use Rattle.update_client.specs.PieceReads.{PieceRead};
ghost use Rattle.update_client.specs.Reads.{failed_reads};
ghost use Rattle.update_client.specs.declared.chunked.piece.Piece.TheVariants as piece;

use crate::chunked::waiting::Waiting;
use crate::heads::{LinkFault, MAX_FIELDS, MAX_HEAD};
use http_wire::Source;
use httparse::spans::{EMPTY_HEADER_SPAN, parse_headers};
use httparse::{Error, Status, parse_chunk_size};

/// The most bytes that the line of a chunk may have.
pub const MAX_CHUNK_LINE: usize = 256;

/// What is read next of a chunked body.
#[derive(Clone, Copy, Drop)]
pub(crate) enum Piece {
    /// The line of a chunk.
    Line,
    /// CR LF after a chunk's bytes.
    End,
    /// The fields after the last chunk, and an empty line.
    Trailer,
}

// The line of a chunk: how many bytes it has, and which size it says.
fn find_line(bytes: &[u8]) -> Result<Option<(usize, u64)>, LinkFault>
    ensures { PieceFound piece.Line bytes.now result }
{
    let front = &bytes[..bytes.len().min(MAX_CHUNK_LINE)];
    match parse_chunk_size(front) {
        Ok(Status::Complete((len, size))) => Ok(Some((len, size))),
        Ok(Status::Partial) if bytes.len() < MAX_CHUNK_LINE => Ok(None),
        Ok(Status::Partial) => Err(LinkFault::LongChunkLine),
        Err(_) => Err(LinkFault::BadChunk),
    }
}

// CR LF.
fn find_end(bytes: &[u8]) -> Result<Option<(usize, u64)>, LinkFault>
    ensures { PieceFound piece.End bytes.now result }
{
    if bytes.len() < 2 {
        return Ok(None);
    }
    if &bytes[..2] != b"\r\n".as_slice() {
        return Err(LinkFault::BadChunk);
    }
    Ok(Some((2, 0)))
}

// The fields after the last chunk, and an empty line.
fn find_trailer(bytes: &[u8]) -> Result<Option<(usize, u64)>, LinkFault>
    ensures { PieceFound piece.Trailer bytes.now result }
{
    let front = &bytes[..bytes.len().min(MAX_HEAD)];
    let mut fields = [EMPTY_HEADER_SPAN; MAX_FIELDS];
    match parse_headers(front, &mut fields) {
        Ok(Status::Complete((len, _))) => Ok(Some((len, 0))),
        Ok(Status::Partial) if bytes.len() < MAX_HEAD => Ok(None),
        Ok(Status::Partial) => Err(LinkFault::LongTrailer),
        Err(Error::TooManyHeaders) => Err(LinkFault::LongTrailer),
        Err(_) => Err(LinkFault::BadTrailer),
    }
}

// The piece at the front: how many bytes it has, and which size it says if it is the line of a chunk.
fn find(piece: Piece, bytes: &[u8]) -> Result<Option<(usize, u64)>, LinkFault>
    ensures { PieceFound piece bytes.now result }
{
    match piece {
        Piece::Line => find_line(bytes),
        Piece::End => find_end(bytes),
        Piece::Trailer => find_trailer(bytes),
    }
}

/// Reads until that piece is at the front, drops it, and returns the size that it says: 0 if it isn't the line of a chunk.
pub(crate) fn read_piece<S: Source>(
    piece: Piece,
    source: &mut S,
    waiting: &mut Waiting,
    block: &mut [u8],
) -> Result<u64, LinkFault>
    requires { 0 < length block.old }
    ensures read { PieceRead piece (S.remaining source.old) (S.remaining source.new) waiting.old waiting.new result }
    ensures failed { S.failures source.new ≡ S.failures source.old + failed_reads result }
    ensures block { length block.new ≡ length block.old }
{
    'reads: loop {
        if let Some((len, size)) = find(piece, waiting.bytes())? {
            waiting.discard(len);
            return Ok(size);
        }
        if waiting.fill(source, block)? == 0 {
            return Err(LinkFault::Ended);
        }
    }
}
