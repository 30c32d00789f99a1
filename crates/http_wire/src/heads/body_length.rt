ghost use Rattle.std.specs.Prelude.{◌≡◌, ℕ, ◌∷◌, ◌++◌, [], List, length, map, All};
ghost use Rattle.httparse.specs.Spans.{IsHeaderWithin, header_bytes};
ghost use Rattle.http_wire.specs.Framing.{framing_of, length_in};
ghost use Rattle.http_wire.specs.Lengths.{IsLengthOf, length_for};

use crate::heads::field::is_named;
use crate::heads::status::Status;
use httparse::spans::HeaderSpan;

/// The most bytes that a body may have.
pub const MAX_BODY: u32 = 262_144;

// What the `Content-Length` fields come to.
#[derive(Clone, Copy, Drop)]
enum Length {
    Missing,
    Known(u32),
    Refused(Status),
}

impl Length {
    // One more field has this value.
    fn then(self, value: &[u8]) -> Length
        ensures { (before : List (List ℕ)) → IsLengthOf self before → IsLengthOf result (before ++ value.now ∷ []) }
    {
        match self {
            Length::Missing => match read_length(value) {
                Ok(length) => Length::Known(length),
                Err(status) => Length::Refused(status),
            },
            _ => Length::Refused(Status::BadRequest),
        }
    }

    // The length of a message with this method.
    fn of(self, method: &[u8]) -> Result<u32, Status>
        ensures { result ≡ length_for method.now self }
    {
        match self {
            Length::Missing if method == b"POST".as_slice() => Err(Status::LengthRequired),
            Length::Missing => Ok(0),
            Length::Known(number) => Ok(number),
            Length::Refused(status) => Err(status),
        }
    }
}

// The number that a value writes, of any number of digits.
fn read_length(value: &[u8]) -> Result<u32, Status>
    ensures { result ≡ length_in value.now }
{
    if value.is_empty() {
        return Err(Status::BadRequest);
    }
    let mut number: u32 = 0;
    for byte in value {
        if !byte.is_ascii_digit() {
            return Err(Status::BadRequest);
        }
        number = (number * 10 + u32::from(*byte - b'0')).min(MAX_BODY + 1);
    }
    if number > MAX_BODY {
        return Err(Status::ContentTooLarge);
    }
    Ok(number)
}

// rule: Length of a body
/// Returns how many bytes follow the head, or the status that rejects the message.
///
/// `fields` are places in `buf`. In this order: 501 for a `Transfer-Encoding`; 400 for two lengths,
/// or one that isn't a number; 411 for a POST without one; 413 for one over `MAX_BODY`.
pub fn framing(method: &[u8], buf: &[u8], fields: &[HeaderSpan]) -> Result<u32, Status>
    requires { All (IsHeaderWithin (length buf.now)) fields.now }
    ensures { result ≡ framing_of method.now (map (header_bytes buf.now) fields.now) }
{
    let mut length = Length::Missing;
    for field in fields {
        if is_named(buf, field, b"transfer-encoding") {
            return Err(Status::NotImplemented);
        }
        if is_named(buf, field, b"content-length") {
            length = length.then(field.value.of(buf));
        }
    }
    length.of(method)
}
