use std::alloc::AllocError;

/// Why a post or a download failed.
///
/// A head that is rejected gives `NoHead` to `BadLength`, and a chunked body `BadChunk` to `LongTrailer`. Nothing else does,
/// but that a download gives `TransferCoding` to a chunked body.
#[derive(Clone, Copy, Drop, PartialEq, Eq)]
pub enum LinkFault {
    /// The address of a download is invalid.
    Address,
    /// No connection could be made, or a time limit could not be set.
    Connect,
    /// Out of memory.
    Memory,
    /// A write failed.
    Write,
    /// A read failed.
    Read,
    /// No head, whatever follows, or no whole head in `MAX_HEAD` bytes.
    NoHead,
    /// More than `MAX_FIELDS` fields.
    ManyFields,
    /// A `Transfer-Encoding` that isn't `chunked` alone, once and in HTTP/1.1, or any before a download.
    TransferCoding,
    /// A `Transfer-Encoding` of `chunked`, and a `Content-Length`.
    TwoFramings,
    /// No `Content-Length` field.
    NoLength,
    /// More than one `Content-Length` field.
    TwoLengths,
    /// A `Content-Length` that isn't a decimal number below 2^64.
    BadLength,
    /// A chunk whose line is invalid, or whose bytes aren't followed by CR LF.
    BadChunk,
    /// A chunk whose line isn't whole in `MAX_CHUNK_LINE` bytes.
    LongChunkLine,
    /// Fields after the last chunk that are invalid.
    BadTrailer,
    /// Fields after the last chunk that aren't whole in `MAX_HEAD` bytes, or more than `MAX_FIELDS`.
    LongTrailer,
    /// The input ended before the head or, at a post, before the end of the body.
    Ended,
    /// The body of a post's reply is announced with more bytes than the caller's limit, at once or in chunks.
    Long,
    /// The reply has another status than 200; so a redirect as well.
    Status,
}

impl From<AllocError> for LinkFault {
    ghost use Rattle.std.specs.Prelude.{◌≡◌};
    ghost use Rattle.update_client.specs.declared.heads.fault.LinkFault.TheVariants.{Memory};

    ghost from_gives = { λ _ fault. fault ≡ Memory };

    fn from(_refused: AllocError) -> LinkFault {
        LinkFault::Memory
    }
}
