ghost use Rattle.std.specs.Prelude.{◌≡◌, length, map, All};
ghost use Rattle.httparse.specs.Spans.{IsHeaderWithin, header_bytes};
ghost use Rattle.http_wire.specs.Browsers.{is_browsers, is_from_browser};

use crate::heads::field::is_named;
use httparse::spans::HeaderSpan;

// Whether browsers add the field.
fn is_browsers(buf: &[u8], field: &HeaderSpan) -> bool
    requires { IsHeaderWithin (length buf.now) field.now }
    ensures { result ≡ is_browsers (header_bytes buf.now field.now) }
{
    is_named(buf, field, b"origin")
        || is_named(buf, field, b"sec-fetch-site")
        || is_named(buf, field, b"sec-fetch-mode")
}

// rule: Message of a browser
/// Whether a browser sends the message: one of its fields is `Origin`, `Sec-Fetch-Site` or `Sec-Fetch-Mode`.
///
/// `fields` are places in `buf`.
pub fn is_from_browser(buf: &[u8], fields: &[HeaderSpan]) -> bool
    requires { All (IsHeaderWithin (length buf.now)) fields.now }
    ensures { result ≡ is_from_browser (map (header_bytes buf.now) fields.now) }
{
    for field in fields {
        if is_browsers(buf, field) {
            return true;
        }
    }
    false
}
