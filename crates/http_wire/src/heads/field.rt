ghost use Rattle.std.specs.Prelude.{◌≡◌, length};
ghost use Rattle.httparse.specs.Spans.{IsHeaderWithin, header_bytes};
ghost use Rattle.http_wire.specs.Fields.{is_named, is_same_word};

use httparse::spans::HeaderSpan;

// Whether two words are the same, whatever their case in ASCII.
pub(crate) fn is_same_word(first: &[u8], second: &[u8]) -> bool
    ensures { result ≡ is_same_word first.now second.now }
{
    first.eq_ignore_ascii_case(second)
}

// Whether a field has this name.
pub(crate) fn is_named(buf: &[u8], field: &HeaderSpan, name: &[u8]) -> bool
    requires { IsHeaderWithin (length buf.now) field.now }
    ensures { result ≡ is_named name.now (header_bytes buf.now field.now) }
{
    is_same_word(field.name.of(buf), name)
}
