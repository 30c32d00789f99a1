// What a connection's bytes are, before a message is read from them.

ghost use Rattle.std.specs.Prelude.{◌≡◌, length};
ghost use Rattle.http_sessions.specs.Readings.{IsForeseen};

use crate::buffers::Buffers;
use crate::message::examine;
use http_desks::Request;
use http_wire::{MAX_HEAD, Status};
use httparse::spans::{HeaderSpan, parse_request};
use httparse::{Error, Status as Parsed};

/// A whole message at the front of a connection's bytes.
#[derive(Clone, Copy, Drop)]
pub struct Found<'b> {
    /// What is asked; `closes` is whether the head asks for the end of the connection.
    pub request: Request<'b>,
    /// How many bytes the message has.
    pub length: usize,
}

/// What a connection's bytes are, before a message is read from them.
#[derive(Clone, Copy, Drop)]
pub enum Foreseen<'b> {
    /// Less than a message; so they are with more bytes, as long as there are fewer than so many in all.
    Part(usize),
    /// A whole message is at their front.
    Whole(Found<'b>),
    /// Bytes that no message begins with, which get a reply of this status.
    Rejected(Status),
}

// rule: Part of a message
// Looks what the bytes are, with room for the fields of a head.
fn foresee_in<'b>(bytes: &'b [u8], fields: &mut [HeaderSpan]) -> Foreseen<'b>
    requires { length fields.old ≡ 5461 }
    ensures { IsForeseen bytes.now result }
{
    let front = &bytes[..bytes.len().min(MAX_HEAD)];
    let spans = match parse_request(front, fields) {
        Ok(Parsed::Complete(spans)) => spans,
        Ok(Parsed::Partial) if bytes.len() < MAX_HEAD => return Foreseen::Part(0),
        Ok(Parsed::Partial) => return Foreseen::Rejected(Status::FieldsTooLarge),
        Err(Error::TooManyHeaders) => unreachable!(),
        Err(_) => return Foreseen::Rejected(Status::BadRequest),
    };
    match examine(front, fields, &spans) {
        Ok(plan) if bytes.len() - spans.len < plan.size => Foreseen::Part(spans.len + plan.size),
        Ok(plan) => Foreseen::Whole(Found {
            request: Request {
                method: plan.method,
                target: spans.path.of(front),
                body: &bytes[spans.len..spans.len + plan.size],
                closes: plan.closes,
            },
            length: spans.len + plan.size,
        }),
        Err(status) => Foreseen::Rejected(status),
    }
}

impl Buffers {
    /// Looks what the bytes of a connection are, without copying them: less than a message, a whole one and others, or
    /// bytes that are rejected.
    pub fn foresee<'b>(&mut self, bytes: &'b [u8]) -> Foreseen<'b>
        ensures { IsForeseen bytes.now result }
    {
        foresee_in(bytes, &mut self.fields)
    }
}
