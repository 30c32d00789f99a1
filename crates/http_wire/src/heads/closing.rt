ghost use Rattle.std.specs.Prelude.{◌≡◌, length, map, reverse, All};
ghost use Rattle.httparse.specs.Spans.{IsHeaderWithin, header_bytes};
ghost use Rattle.httparse.specs.Grammar.{skip_ows, trim_ows};
ghost use Rattle.http_wire.specs.Closing.{closes, closes_after, is_close, lists_close};

use crate::heads::field::{is_named, is_same_word};
use httparse::spans::HeaderSpan;

fn trim_start(mut text: &[u8]) -> &[u8]
    ensures { result.now ≡ skip_ows text.now }
{
    while let [first, rest @ ..] = text
        && (*first == b' ' || *first == b'\t')
    {
        text = rest;
    }
    text
}

fn trim_end(mut text: &[u8]) -> &[u8]
    ensures { result.now ≡ reverse (skip_ows (reverse text.now)) }
{
    while let [rest @ .., last] = text
        && (*last == b' ' || *last == b'\t')
    {
        text = rest;
    }
    text
}

#[tactic(auto, unfolding(httparse::specs::Grammar::trim_ows))]
fn is_close(part: &[u8]) -> bool
    ensures { result ≡ is_close part.now }
{
    is_same_word(trim_end(trim_start(part)), b"close")
}

// Whether `close` is one of the parts between commas.
fn lists_close(value: &[u8]) -> bool
    ensures { result ≡ lists_close value.now }
{
    let mut start = 0;
    for end in 0..value.len() {
        if value[end] == b',' {
            if is_close(&value[start..end]) {
                return true;
            }
            start = end + 1;
        }
    }
    is_close(&value[start..])
}

// Whether the field is a `Connection` that lists `close`.
fn closes(buf: &[u8], field: &HeaderSpan) -> bool
    requires { IsHeaderWithin (length buf.now) field.now }
    ensures { result ≡ closes (header_bytes buf.now field.now) }
{
    is_named(buf, field, b"connection") && lists_close(field.value.of(buf))
}

// rule: End of a connection
/// Whether the connection ends after the reply to a message of version 1.`minor`.
///
/// `fields` are places in `buf`.
pub fn wants_close(minor: u8, buf: &[u8], fields: &[HeaderSpan]) -> bool
    requires { All (IsHeaderWithin (length buf.now)) fields.now }
    ensures { result ≡ closes_after minor (map (header_bytes buf.now) fields.now) }
{
    if minor == 0 {
        return true;
    }
    for field in fields {
        if closes(buf, field) {
            return true;
        }
    }
    false
}
