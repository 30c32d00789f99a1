//! The body of a reply in the chunked transfer coding, as a client reads it.
//!
//! `read_chunked` reads such a body of a source, after the bytes that came with the head: no more bytes than its caller
//! allows, and a bounded number besides. `read_more` reads once. Read `specs/Chunks.antt`, then `specs/Failures.antt`.
//!
//! It reads no head and no body of a known length, keeps no extension and no trailer field, and writes nothing.

mod chunked;
mod piece;
mod reading;
mod waiting;

pub use crate::chunked::chunked::read_chunked;
pub use crate::chunked::piece::MAX_CHUNK_LINE;
pub use crate::chunked::reading::{BLOCK, read_more};
