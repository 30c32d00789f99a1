//! The lines of bytes.

ghost use Rattle.std.specs.Prelude.{◌≡◌, IfSome, option_map, position};
ghost use Rattle.std.specs.Option.{is_some};
ghost use Rattle.std.specs.Str.{is_utf8};
ghost use Rattle.certificates.specs.Reading.{is_feed, line_split};

fn find_feed(bytes: &[u8]) -> Option<usize>
    ensures { result ≡ position is_feed bytes.now }
{
    bytes.iter().position(|byte| *byte == b'\n')
}

/// The first line, without its line feed, and what is after it; none if no line feed ends it.
pub(crate) fn split_line(bytes: &[u8]) -> Option<(&[u8], &[u8])>
    ensures { option_map (λ parts. (parts.0.now, parts.1.now)) result ≡ line_split bytes.now }
{
    match find_feed(bytes) {
        Some(at) => Some((&bytes[..at], &bytes[at + 1..])),
        None => None,
    }
}

/// The bytes as a string, if they are UTF-8.
pub(crate) fn as_string(bytes: &[u8]) -> Option<&str>
    ensures same { IfSome result (λ string. string.now ≡ bytes.now) }
    ensures utf8 { is_some result ≡ is_utf8 bytes.now }
{
    match str::from_utf8(bytes) {
        Ok(string) => Some(string),
        Err(_) => None,
    }
}
