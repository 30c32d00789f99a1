ghost use Rattle.std.specs.Prelude.{◌≡◌, length, map, All};
ghost use Rattle.std.specs.List.{list_all};
ghost use Rattle.httparse.specs.Spans.{IsHeaderWithin, header_bytes};
ghost use Rattle.http_wire.specs.Hosts.{is_for_another, is_foreign, is_literal_byte, is_near};

use crate::heads::field::{is_named, is_same_word};
use crate::heads::target::before;
use httparse::spans::HeaderSpan;

// Whether a literal address may have the byte before its first colon.
fn is_literal_byte(byte: u8) -> bool
    ensures { result ≡ is_literal_byte byte }
{
    byte.is_ascii_digit() || byte == b'.' || byte == b'['
}

// Whether a literal address may have these bytes.
fn are_literal_bytes(bytes: &[u8]) -> bool
    ensures { result ≡ list_all is_literal_byte bytes.now }
{
    bytes.iter().all(|byte| is_literal_byte(*byte))
}

// Whether a host is `localhost` or a literal address.
fn is_near(host: &[u8]) -> bool
    ensures { result ≡ is_near host.now }
{
    is_same_word(host, b"localhost") || are_literal_bytes(host)
}

// Whether the field is a `Host` that names another machine.
fn is_foreign(buf: &[u8], field: &HeaderSpan) -> bool
    requires { IsHeaderWithin (length buf.now) field.now }
    ensures { result ≡ is_foreign (header_bytes buf.now field.now) }
{
    is_named(buf, field, b"host") && !is_near(before(field.value.of(buf), b':'))
}

// rule: Message for another host
/// Whether the message is for another host than this machine: a `Host` field has a name that isn't `localhost`.
///
/// A page whose name was pointed at this machine sends such a message, and a person or a program that asks this machine
/// does not. A literal address is no name. `fields` are places in `buf`.
pub fn is_for_another(buf: &[u8], fields: &[HeaderSpan]) -> bool
    requires { All (IsHeaderWithin (length buf.now)) fields.now }
    ensures { result ≡ is_for_another (map (header_bytes buf.now) fields.now) }
{
    for field in fields {
        if is_foreign(buf, field) {
            return true;
        }
    }
    false
}
