ghost use Rattle.std.specs.Prelude.{◌≡◌};
ghost use Rattle.update_client.specs.Starts.{StartFound};

use crate::heads::fault::LinkFault;
use crate::heads::length::{BodyLength, body_length};
use httparse::spans::{EMPTY_HEADER_SPAN, parse_response};
use httparse::{Error, Status};

/// The most bytes that the head of a reply may have.
pub const MAX_HEAD: usize = 16384;

/// The most fields that the head of a reply may have.
pub const MAX_FIELDS: usize = 100;

/// A reply's head at the front of bytes.
#[derive(Clone, Copy, Drop)]
pub struct Start {
    /// The status, such as 200.
    pub status: u16,
    /// The length of the head in bytes.
    pub head: usize,
    /// The length of the body that follows.
    pub body: BodyLength,
}

// rule: Head of a reply that is read
/// Finds the head of a reply at the front of the bytes, its status, and how long its body is.
///
/// Returns `None` if there are less than `MAX_HEAD` bytes, and more can make them a head. Errors are those
/// of `body_length` after a whole head, and before it: bytes that can't become a head, `MAX_HEAD` bytes or
/// more without a whole head, more than `MAX_FIELDS` fields.
pub fn read_start(bytes: &[u8]) -> Result<Option<Start>, LinkFault>
    ensures { StartFound bytes.now result }
{
    let mut fields = [EMPTY_HEADER_SPAN; MAX_FIELDS];
    match parse_response(bytes, &mut fields) {
        Ok(Status::Complete(spans)) => {
            match body_length(bytes, spans.version, &fields[..spans.headers]) {
                Ok(body) => Ok(Some(Start {
                    status: spans.code,
                    head: spans.len,
                    body,
                })),
                Err(fault) => Err(fault),
            }
        }
        Ok(Status::Partial) if bytes.len() < MAX_HEAD => Ok(None),
        Ok(Status::Partial) => Err(LinkFault::NoHead),
        Err(Error::TooManyHeaders) => Err(LinkFault::ManyFields),
        Err(_) => Err(LinkFault::NoHead),
    }
}
