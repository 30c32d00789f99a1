ghost use Rattle.std.specs.Prelude.{◌≡◌, ◌+◌, ◌++◌, List, [], ◌∷◌, ℕ, codes, is_ok, if◌then◌else◌};
ghost use Rattle.http_wire.specs.Replies.{head_bytes, type_line};
ghost use Rattle.http_wire.specs.Sending.{Sends, joined};

use crate::device::Sink;
use crate::heads::{ReplyHead, allow_field, last_field};
use crate::sending::{join, send, send_all};
use itoa::Buffer;
use values::Failed;

// Writes the strings in one write, if they fit the block.
fn send_joined<W: Sink>(sink: &mut W, block: &mut [u8], texts: &[&[u8]]) -> Result<(), Failed>
    ensures sends { Sends (W.contents sink.old) (W.contents sink.new) (joined texts.now) result }
    ensures failed { W.failures sink.new ≡ W.failures sink.old + (if is_ok result then 0 else 1) }
{
    match join(block, texts) {
        Some(end) => send(sink, &block[..end]),
        None => send_all(sink, texts),
    }
}

// The parts of a head that differ from reply to reply.
#[derive(Clone, Copy)]
struct Parts<'a> {
    // the status line
    line: &'a [u8],
    // the field that names the type of the body, in three parts
    kind: (&'a [u8], &'a [u8], &'a [u8]),
    // the field that names the allowed method
    allow: &'a [u8],
    // the length of the body
    size: &'a [u8],
    // the field that announces the end of the connection, and the empty line
    last: &'a [u8],
}

// Writes a head of these parts, and a body.
fn send_parts<'a, W: Sink>(
    sink: &mut W,
    block: &mut [u8],
    parts: Parts<'a>,
    body: &'a [u8],
) -> Result<(), Failed>
    ensures sends { Sends (W.contents sink.old) (W.contents sink.new)
        (parts.entry.line.now ++ (parts.entry.kind.0.now ++ (parts.entry.kind.1.now ++ (parts.entry.kind.2.now ++ (parts.entry.allow.now
        ++ (codes "Content-Length: " ++ (parts.entry.size.now ++ (codes "\r\n" ++ (parts.entry.last.now ++ (body.now ++ [])))))))))) result }
    ensures failed { W.failures sink.new ≡ W.failures sink.old + (if is_ok result then 0 else 1) }
{
    let name: &'a [u8] = b"Content-Length: ";
    let end: &'a [u8] = b"\r\n";
    let (before, text, after) = parts.kind;
    send_joined(
        sink,
        block,
        &[
            parts.line,
            before,
            text,
            after,
            parts.allow,
            name,
            parts.size,
            end,
            parts.last,
            body,
        ],
    )
}

// The parts of the field that names a type, if there is one.
#[tactic(auto, unfolding(crate::specs::Replies::type_line))]
fn type_fields<'a>(kind: &'a str) -> (&'a str, &'a str, &'a str)
    ensures { result.0.now ++ (result.1.now ++ result.2.now) ≡ type_line kind.now }
{
    if kind.is_empty() {
        ("", "", "")
    } else {
        ("Content-Type: ", kind, "\r\n")
    }
}

// rule: Head of a reply
/// Writes a reply, head and body, in one write if they fit the block.
///
/// A failure finds a first part of the reply written, and not all.
pub fn send_reply<W: Sink>(
    sink: &mut W,
    block: &mut [u8],
    head: &ReplyHead<'_>,
    body: &[u8],
) -> Result<(), Failed>
    ensures sends { Sends (W.contents sink.old) (W.contents sink.new) (head_bytes head.now ++ body.now) result }
    ensures failed { W.failures sink.new ≡ W.failures sink.old + (if is_ok result then 0 else 1) }
{
    let mut digits = Buffer::new();
    let size = digits.format(head.size).as_bytes();
    let kind = type_fields(head.kind);
    let parts = Parts {
        line: head.status.line().as_bytes(),
        kind: (kind.0.as_bytes(), kind.1.as_bytes(), kind.2.as_bytes()),
        allow: allow_field(head.allow).as_bytes(),
        size,
        last: last_field(head.closes).as_bytes(),
    };
    send_parts(sink, block, parts, body)
}
