ghost use Rattle.std.specs.Prelude.{◌≡◌, ◌∷◌, [], length, map, All, IfErr, MatchOption, codes};
ghost use Rattle.httparse.specs.Spans.{IsHeaderWithin, header_bytes};
ghost use Rattle.http_wire.specs.Fields.{is_named, values_named};
ghost use Rattle.update_client.specs.Lengths.{IsHeadFault, body_length, is_chunked, known_length, length_in};

use crate::heads::fault::LinkFault;
use httparse::spans::HeaderSpan;

// The first length that is too long: 2^64.
const TOO_LONG: u128 = 18_446_744_073_709_551_616;

// Whether a field has this name, in any case.
fn is_named(buf: &[u8], field: &HeaderSpan, name: &[u8]) -> bool
    requires { IsHeaderWithin (length buf.now) field.now }
    ensures { result ≡ is_named name.now (header_bytes buf.now field.now) }
{
    field.name.of(buf).eq_ignore_ascii_case(name)
}

// Whether a body is chunked in a reply of HTTP/1.`minor` with this only transfer coding.
fn is_chunked(minor: u8, coding: &[u8]) -> bool
    ensures { result ≡ is_chunked minor coding.now }
{
    minor == 1 && coding.eq_ignore_ascii_case(b"chunked")
}

// The value of the first field with this name, and the fields after it.
fn find_value<'a>(
    buf: &'a [u8],
    mut fields: &'a [HeaderSpan],
    name: &[u8],
) -> Option<(&'a [u8], &'a [HeaderSpan])>
    requires { All (IsHeaderWithin (length buf.now)) fields.now }
    ensures within { MatchOption result (Unit {0}) (λ found. All (IsHeaderWithin (length buf.now)) found.1.now) }
    ensures values { MatchOption result (values_named name.now (map (header_bytes buf.now) fields.now) ≡ [])
        (λ found. values_named name.now (map (header_bytes buf.now) fields.now)
        ≡ found.0.now ∷ values_named name.now (map (header_bytes buf.now) found.1.now)) }
{
    while let [field, rest @ ..] = fields {
        fields = rest;
        if is_named(buf, field, name) {
            return Some((field.value.of(buf), fields));
        }
    }
    None
}

/// Returns the number that decimal digits write, if it is below 2^64.
pub(crate) fn read_length(value: &[u8]) -> Result<u64, LinkFault>
    ensures value { result ≡ length_in value.now }
    ensures err { IfErr result IsHeadFault }
{
    if value.is_empty() {
        return Err(LinkFault::BadLength);
    }
    let mut number: u128 = 0;
    for byte in value {
        if !byte.is_ascii_digit() {
            return Err(LinkFault::BadLength);
        }
        number = (number * 10 + u128::from(*byte - b'0')).min(TOO_LONG);
    }
    if number >= TOO_LONG {
        return Err(LinkFault::BadLength);
    }
    Ok(number as u64)
}

/// How many bytes the body of a reply has.
#[derive(Clone, Copy, Drop)]
pub enum BodyLength {
    /// As many.
    Known(u64),
    /// As many as its chunks have.
    Chunked,
}

// The length that the fields write: there is one.
fn known_length(buf: &[u8], fields: &[HeaderSpan]) -> Result<BodyLength, LinkFault>
    requires { All (IsHeaderWithin (length buf.now)) fields.now }
    ensures value { result ≡ known_length (values_named (codes "content-length") (map (header_bytes buf.now) fields.now)) }
    ensures err { IfErr result IsHeadFault }
{
    let Some((value, rest)) = find_value(buf, fields, b"content-length") else {
        return Err(LinkFault::NoLength);
    };
    if find_value(buf, rest, b"content-length").is_some() {
        return Err(LinkFault::TwoLengths);
    }
    Ok(BodyLength::Known(read_length(value)?))
}

// rule: Length of a reply
/// Returns how many bytes follow the head of a reply of HTTP/1.`minor`, or why the reply is rejected.
///
/// `fields` are places in `buf`. In this order: a `Transfer-Encoding` that isn't `chunked` in any case, two of them,
/// or one in HTTP/1.0; one beside a `Content-Length`. Without one: no `Content-Length`, or two; one that isn't a
/// decimal number below 2^64.
#[tactic(auto, unfolding(crate::specs::Lengths::body_length))]
pub fn body_length(buf: &[u8], minor: u8, fields: &[HeaderSpan]) -> Result<BodyLength, LinkFault>
    requires { All (IsHeaderWithin (length buf.now)) fields.now }
    ensures value { result ≡ body_length minor (map (header_bytes buf.now) fields.now) }
    ensures err { IfErr result IsHeadFault }
{
    let Some((coding, rest)) = find_value(buf, fields, b"transfer-encoding") else {
        return known_length(buf, fields);
    };
    if find_value(buf, rest, b"transfer-encoding").is_some() || !is_chunked(minor, coding) {
        return Err(LinkFault::TransferCoding);
    }
    if find_value(buf, fields, b"content-length").is_some() {
        return Err(LinkFault::TwoFramings);
    }
    Ok(BodyLength::Chunked)
}
