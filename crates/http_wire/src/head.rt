ghost use Rattle.std.specs.Prelude.{◌≡◌, ◌+◌, length, is_ok, if◌then◌else◌};
ghost use Rattle.http_wire.specs.Devices.{Came};
ghost use Rattle.http_wire.specs.Heads.{HeadFound};

use crate::device::Source;
use crate::window::{MAX_HEAD, Window};
use httparse::spans::{HeaderSpan, RequestSpans, parse_request};
use httparse::{Error, Status};
use values::Failed;

/// How many places `read_head` needs: a head of `MAX_HEAD` bytes has no more fields.
pub const MAX_FIELDS: usize = 5461;

/// What a window begins with.
#[derive(Clone, Copy, Drop)]
pub enum Head {
    /// A whole head, whose parts are at these places.
    Whole(RequestSpans),
    /// Less than a head: the input has ended.
    Ended,
    /// No head, whatever follows.
    Bad,
    /// `MAX_HEAD` bytes that are less than a head.
    Long,
}

// rule: Head of a request
/// Reads until the window begins with a head, or can't.
///
/// `fields` has `MAX_FIELDS` places, and the first ones are written. A failure finds less than a
/// head in the window.
pub fn read_head<S: Source>(
    source: &mut S,
    window: &mut Window,
    fields: &mut [HeaderSpan],
) -> Result<Head, Failed>
    requires { length fields.old ≡ 5461 }
    ensures came { Came (S.remaining source.old) (S.remaining source.new) window.old window.new }
    ensures found { HeadFound (S.remaining source.new) window.new fields.new result }
    ensures failed { S.failures source.new ≡ S.failures source.old + (if is_ok result then 0 else 1) }
{
    'reads: loop {
        match parse_request(window.bytes(), fields) {
            Ok(Status::Complete(spans)) => return Ok(Head::Whole(spans)),
            Ok(Status::Partial) => {}
            Err(Error::TooManyHeaders) => unreachable!(),
            Err(_) => return Ok(Head::Bad),
        }
        if window.bytes().len() == MAX_HEAD {
            return Ok(Head::Long);
        }
        match window.fill(source) {
            Ok(0) => return Ok(Head::Ended),
            Ok(_) => {}
            Err(error) => return Err(error),
        }
    }
}
