// What an operator's listener of an omaha server replies.

ghost use Rattle.std.specs.Prelude.{◌≡◌, IfOk, option_map};
ghost use Rattle.std.specs.Option.{is_some};
ghost use Rattle.omaha_arguments.specs.Options.{number_of};
ghost use Rattle.service_desks.specs.Raises.{line_of};
ghost use Rattle.omaha_commands.specs.Forms.{are_status_lines, first_line, has_number, is_declining, is_expected, is_fault, is_followed, is_lack, is_line_expected, is_numbered, is_outcome, is_profile, is_raised, is_status, later_lines, line_after, meaning_by_decline, meaning_by_form, meaning_of};

use crate::asking::as_string;
use omaha_arguments::number_of;
use profile_toml::read_profile;
use std::alloc::{AllocError, Global};
use update_client::Reply;
use values::ReadError;

/// What a reply to a command is.
#[derive(Clone, Copy)]
pub(crate) enum Meaning {
    /// The operator's listener did what it was asked for.
    Done,
    /// It didn't, and says why.
    Declined,
    /// No operator's listener replies so.
    Unexpected,
}

/// The bytes between a word and the line feed at the end of a reply.
pub(crate) fn line_after<'a>(word: &[u8], reply: &'a [u8]) -> Option<&'a [u8]>
    ensures { option_map (λ line. line.now) result ≡ line_after word.now reply.now }
{
    let rest = reply.strip_prefix(word)?;
    rest.strip_suffix(b"\n")
}

// Whether bytes are the decimal digits of a number.
fn is_number(digits: &[u8]) -> bool
    ensures { result ≡ is_some (number_of digits.now) }
{
    match as_string(digits) {
        Some(digits) => number_of(digits).is_some(),
        None => false,
    }
}

// Whether a reply is a line of a word and a number.
fn is_numbered(word: &[u8], reply: &[u8]) -> bool
    ensures { result ≡ is_numbered word.now reply.now }
{
    match line_after(word, reply) {
        Some(digits) => is_number(digits),
        None => false,
    }
}

// Whether a reply is one to a look for a record of another server.
fn is_followed(reply: &[u8]) -> bool
    ensures { result ≡ is_followed reply.now }
{
    is_numbered(b"followed ", reply) || is_numbered(b"edition ", reply)
}

// What follows the word of a raise, on its line.
fn line_of(body: &[u8]) -> &[u8]
    ensures { result.now ≡ line_of body.now }
{
    let rest = match body.get(6..) {
        Some(rest) => rest,
        None => b"",
    };
    if rest.ends_with(b"\n") {
        &rest[..rest.len().saturating_sub(1)]
    } else {
        rest
    }
}

// Whether a reply says that the raise was made which a body asked for.
fn is_raised(body: &[u8], reply: &[u8]) -> bool
    ensures { result ≡ is_raised body.now reply.now }
{
    match line_after(b"raised ", reply) {
        Some(line) => line == line_of(body),
        None => false,
    }
}

// The first line of a string, and what follows it.
fn split_line(text: &str) -> (&str, &str)
    ensures first { result.0.now ≡ first_line text.now }
    ensures later { result.1.now ≡ later_lines text.now }
{
    match text.split_once('\n') {
        Some(parts) => parts,
        None => (text, ""),
    }
}

// Whether a line is a word and a number.
fn has_number(word: &[u8], line: &str) -> bool
    ensures { result ≡ has_number word.now line.now }
{
    match line.as_bytes().strip_prefix(word) {
        Some(digits) => is_number(digits),
        None => false,
    }
}

// Whether a string begins with the lines of a status.
fn are_status_lines(text: &str) -> bool
    ensures { result ≡ are_status_lines text.now }
{
    let (edition, rest) = split_line(text);
    let (started, rest) = split_line(rest);
    has_number(b"edition ", edition)
        && has_number(b"started ", started)
        && rest.as_bytes().starts_with(b"address ")
}

// Whether a reply is the status of a server.
fn is_status(reply: &[u8]) -> bool
    ensures { result ≡ is_status reply.now }
{
    match as_string(reply) {
        Some(text) => are_status_lines(text),
        None => false,
    }
}

// Whether a reply is a profile.
fn is_profile(alloc: Global, reply: &[u8]) -> Result<bool, AllocError>
    ensures { IfOk result (λ is. is ≡ is_profile reply.now) }
{
    match read_profile(alloc, reply) {
        Ok(_) => Ok(true),
        Err(ReadError::Fault(_)) => Ok(false),
        Err(ReadError::Memory) => Err(AllocError),
    }
}

// Whether a reply of 200 is the one to a body that asks for no dump.
fn is_line_expected(body: &[u8], reply: &[u8]) -> bool
    ensures { result ≡ is_line_expected body.now reply.now }
{
    if body == b"status".as_slice() {
        is_status(reply)
    } else if body == b"stop".as_slice() {
        reply == b"stopping\n".as_slice()
    } else if body == b"follow".as_slice() {
        is_followed(reply)
    } else if body.starts_with(b"raise ") {
        is_raised(body, reply)
    } else {
        is_numbered(b"edition ", reply)
    }
}

// Whether a reply of 200 is the one to a body.
fn is_expected(alloc: Global, body: &[u8], reply: &[u8]) -> Result<bool, AllocError>
    ensures { IfOk result (λ is. is ≡ is_expected body.now reply.now) }
{
    if body == b"dump".as_slice() {
        is_profile(alloc, reply)
    } else {
        Ok(is_line_expected(body, reply))
    }
}

// Whether a reply says what became of a script or a raise.
fn is_outcome(reply: &[u8]) -> bool
    ensures { result ≡ is_outcome reply.now }
{
    reply.starts_with(b"stale ")
        || reply.starts_with(b"refused ")
        || reply.starts_with(b"history ")
        || reply.starts_with(b"bad raise")
}

// Whether a reply says what is wrong with a script.
fn is_fault(reply: &[u8]) -> bool
    ensures { result ≡ is_fault reply.now }
{
    reply.starts_with(b"F1 ")
        || reply.starts_with(b"F2 ")
        || reply.starts_with(b"F3 ")
        || reply.starts_with(b"F4 ")
        || reply.starts_with(b"F5 ")
}

// Whether a reply says which package is lacking.
fn is_lack(reply: &[u8]) -> bool
    ensures { result ≡ is_lack reply.now }
{
    reply.starts_with(b"missing ") || reply.starts_with(b"size ")
}

// Whether a reply says why an operator's listener didn't do what it was asked for.
fn is_declining(reply: &[u8]) -> bool
    ensures { result ≡ is_declining reply.now }
{
    is_outcome(reply) || is_fault(reply) || is_lack(reply)
}

// What a reply of 200 is.
fn meaning_by_form(expected: bool) -> Meaning
    ensures { result ≡ meaning_by_form expected }
{
    if expected {
        Meaning::Done
    } else {
        Meaning::Unexpected
    }
}

/// What a reply of another status is.
pub(crate) fn meaning_by_decline(reply: &[u8]) -> Meaning
    ensures { result ≡ meaning_by_decline reply.now }
{
    if is_declining(reply) {
        Meaning::Declined
    } else {
        Meaning::Unexpected
    }
}

// rule: Reply of an operator's listener
/// What a reply to a body is that was posted to an operator's listener. To read a dump takes memory.
pub(crate) fn meaning_of(alloc: Global, body: &[u8], reply: &Reply) -> Result<Meaning, AllocError>
    ensures { IfOk result (λ meaning. meaning ≡ meaning_of body.now reply.now) }
{
    if reply.status == 200 {
        match is_expected(alloc, body, reply.body.as_slice()) {
            Ok(expected) => Ok(meaning_by_form(expected)),
            Err(error) => Err(error),
        }
    } else {
        Ok(meaning_by_decline(reply.body.as_slice()))
    }
}
