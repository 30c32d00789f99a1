// What the heads of a message and of its reply say.

ghost use Rattle.std.specs.Prelude.{◌≡◌, ◌<◌, ℕ, List, IfSome, None, Some, drop, length, map, option_map};
ghost use Rattle.httparse.specs.Borrowed.{header_parts};
ghost use Rattle.httparse.specs.Grammar.{ReadsResponse, ResponseHead, print_response, status_code};
ghost use Rattle.access_logs.specs.Entries.{IsAsker, ends_line, first_line, up_to_end, value_named};

use httparse::{EMPTY_HEADER, Header, Request, Response, Status};
use std::str;

// The most fields of a head that are read.
const MAX_FIELDS: usize = 64;

// Whether a byte ends a line.
fn ends_line(byte: u8) -> bool
    ensures { result ≡ ends_line byte }
{
    byte == b'\r' || byte == b'\n'
}

// The bytes up to the end of a line.
fn up_to_end(bytes: &[u8]) -> &[u8]
    ensures { result.now ≡ up_to_end bytes.now }
{
    for (index, byte) in bytes.iter().enumerate() {
        if ends_line(*byte) {
            return &bytes[..index];
        }
    }
    bytes
}

/// Returns the first line that is not empty, without its end.
pub(crate) fn first_line(bytes: &[u8]) -> &[u8]
    ensures { result.now ≡ first_line bytes.now }
{
    for (index, byte) in bytes.iter().enumerate() {
        if !ends_line(*byte) {
            return up_to_end(&bytes[index..]);
        }
    }
    &[]
}

/// What the head of a message says of who asks.
#[derive(Clone, Copy, Drop)]
pub(crate) struct Asker<'a> {
    /// The value of the field `Referer`.
    pub(crate) referrer: Option<&'a [u8]>,
    /// The value of the field `User-Agent`.
    pub(crate) agent: Option<&'a [u8]>,
}

// The value of the first field of this name.
fn value_of<'a>(fields: &[Header<'a>], name: &str) -> Option<&'a [u8]>
    ensures { option_map (λ b. b.now) result ≡ value_named name.now (map header_parts fields.now) }
{
    for field in fields {
        if field.name.eq_ignore_ascii_case(name) {
            return Some(field.value);
        }
    }
    None
}

/// Returns who asks by the head that the bytes begin with.
pub(crate) fn asker_of(bytes: &[u8]) -> Asker<'_>
    ensures { IsAsker bytes.now (option_map (λ b. b.now) result.referrer) (option_map (λ b. b.now) result.agent) }
{
    let mut fields = [EMPTY_HEADER; MAX_FIELDS];
    let mut head = Request::new(&mut fields);
    match head.parse(bytes) {
        Ok(Status::Complete(_)) => {
            let fields: &[Header<'_>] = head.headers;
            Asker {
                referrer: value_of(fields, "referer"),
                agent: value_of(fields, "user-agent"),
            }
        }
        _ => Asker {
            referrer: None,
            agent: None,
        },
    }
}

/// What the head of a reply says.
#[derive(Clone, Copy, Drop)]
pub(crate) struct Replied {
    /// The status, if the head was written whole.
    pub(crate) status: Option<u16>,
    /// How many bytes the head has, if it was written whole.
    pub(crate) head: Option<u64>,
    /// How many bytes the body is to have, if the head says so.
    pub(crate) size: Option<u64>,
}

// The number that the bytes spell, if they do.
fn number_in(bytes: &[u8]) -> Option<u64> {
    str::from_utf8(bytes).ok()?.parse().ok()
}

// The length of the body by the fields of a head.
fn size_in(fields: &[Header<'_>]) -> Option<u64> {
    number_in(value_of(fields, "content-length")?)
}

/// Returns what the head says that the bytes begin with.
pub(crate) fn replied_in(bytes: &[u8]) -> Replied
    ensures head { IfSome result.head (λ count. (head : ResponseHead)
        × ReadsResponse bytes.now head (drop count bytes.now)
        × (count ≡ length (print_response head)) × (result.status ≡ Some (status_code head))) }
    ensures cut { result.head ≡ None → result.status ≡ None }
    ensures none { result.head ≡ None → (head : ResponseHead) (rest : List ℕ) → ReadsResponse bytes.now head rest
        → 64 < length head.fields }
{
    let mut fields = [EMPTY_HEADER; MAX_FIELDS];
    let mut head = Response::new(&mut fields);
    let head_size = match head.parse(bytes) {
        Ok(Status::Complete(count)) => Some(count as u64),
        _ => None,
    };
    Replied {
        status: head_size.and(head.code),
        head: head_size,
        size: size_in(head.headers),
    }
}
