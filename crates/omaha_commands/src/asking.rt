// The number of a server's edition.

ghost use Rattle.std.specs.Prelude.{◌≡◌, Err, IfErr, IfOk, IfSome, option_map, string_bytes};
ghost use Rattle.std.specs.Option.{is_some};
ghost use Rattle.std.specs.Str.{is_utf8};
ghost use Rattle.omaha_commands.specs.Asking.{HasEdition, IsEditionLine, digits_said, dump_limits, edition_line, edition_named, line_limits};
ghost use Rattle.omaha_commands.specs.Reviewing.{IsUnanswered};

use crate::fetching::{PROBE, ask};
use crate::forms::line_after;
use failures::Failure;
use omaha_arguments::number_of;
use std::alloc::{AllocError, Global};
use std::str;
use update_client::{Connector, Limits};
use values::Text;

/// How many seconds an exchange may take that no option limits.
pub(crate) const SECONDS: u64 = 30;

// rule: Time limit of an exchange
/// What an exchange may take whose reply is a line: so many seconds, and 65536 bytes.
pub(crate) fn line_limits(seconds: u64) -> Limits
    ensures { result ≡ line_limits seconds }
{
    Limits {
        seconds,
        reply: 65536,
    }
}

/// What an exchange may take whose reply is a profile: so many seconds, and 256 MiB.
pub(crate) fn dump_limits(seconds: u64) -> Limits
    ensures { result ≡ dump_limits seconds }
{
    Limits {
        seconds,
        reply: 268435456,
    }
}

// The bytes between `stale ` and a line feed.
fn digits_said(body: &[u8]) -> Option<&[u8]>
    ensures { option_map (λ digits. digits.now) result ≡ digits_said body.now }
{
    line_after(b"stale ", body)
}

/// The bytes as a string, if they are UTF-8.
pub(crate) fn as_string(bytes: &[u8]) -> Option<&str>
    ensures same { IfSome result (λ string. string.now ≡ bytes.now) }
    ensures utf8 { is_some result ≡ is_utf8 bytes.now }
{
    match str::from_utf8(bytes) {
        Ok(string) => Some(string),
        Err(_) => None,
    }
}

// rule: Edition of a server
// The number of the edition that a reply names.
fn edition_named(body: &[u8]) -> Option<u64>
    ensures { result ≡ edition_named body.now }
{
    match digits_said(body) {
        None => None,
        Some(digits) => match as_string(digits) {
            None => None,
            Some(digits) => number_of(digits),
        },
    }
}

// The failure of a listener that sends another reply than the one that was asked for.
pub(crate) fn unanswered(to: &Text) -> Failure
    ensures { IsUnanswered to.now (Err result) }
{
    match to.clone() {
        Ok(to) => Failure::Net(to),
        Err(_) => Failure::Memory,
    }
}

/// The number of the edition that the server of an operator's listener has. To ask may take so many seconds.
///
/// Fails with `Net` if the listener can't be reached, or names no edition.
pub(crate) fn edition_at<R: Connector>(
    rt: &R,
    alloc: Global,
    to: &Text,
    seconds: u64,
) -> Result<u64, Failure>
    ensures ok { IfOk result (λ number. HasEdition (R.operated rt.now) to.now number) }
    ensures err { IfErr result (λ failure. IsUnanswered to.now (Err failure)) }
{
    match ask(rt, alloc, to, line_limits(seconds), PROBE) {
        Ok(reply) => match edition_named(reply.body.as_slice()) {
            Some(number) => Ok(number),
            None => Err(unanswered(to)),
        },
        Err(failure) => Err(failure),
    }
}

// The line of an edition of a server.
fn line_of(alloc: Global, number: u64, to: &Text) -> Result<String, AllocError>
    ensures { IfOk result (λ line. string_bytes line ≡ edition_line number to.now) }
{
    let at = to.as_str();
    format!(in alloc; "omaha: edition {number} at {at}\n")
}

/// The line of a server's edition. To ask may take so many seconds.
///
/// Fails with `Net` if the listener can't be reached, or names no edition.
pub(crate) fn edition_line<R: Connector>(
    rt: &R,
    alloc: Global,
    to: &Text,
    seconds: u64,
) -> Result<String, Failure>
    ensures ok { IfOk result (λ line. IsEditionLine (R.operated rt.now) to.now (string_bytes line)) }
    ensures err { IfErr result (λ failure. IsUnanswered to.now (Err failure)) }
{
    match edition_at(rt, alloc, to, seconds) {
        Ok(number) => Ok(line_of(alloc, number, to)?),
        Err(failure) => Err(failure),
    }
}
