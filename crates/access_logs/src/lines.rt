// The lines of the log.

ghost use Rattle.std.specs.Prelude.{◌≡◌, ◌++◌, ◌<◌, IfOk, OnOk, Some, string_bytes};
ghost use Rattle.std.specs.Option.{option_map};
ghost use Rattle.access_logs.specs.Lines.{IsLine, digit_of, escaped, escaped_byte, is_plain, outcome_string, quoted, start_string};

use crate::entry::Entry;
use crate::times::Time;
use std::alloc::{AllocError, Global};
use std::fmt;
use std::net::IpAddr;

// Whether a byte is printed as it is.
fn is_plain(byte: u8) -> bool
    ensures { result ≡ is_plain byte }
{
    31 < byte && byte < 127 && byte != b'"' && byte != b'\\'
}

// A hexadecimal digit.
fn digit_of(value: u8) -> u8
    requires { value < 16 }
    ensures { result ≡ digit_of value }
{
    if value < 10 { 48 + value } else { 55 + value }
}

// Appends a byte as it is printed.
fn push_byte(line: &mut Vec<u8>, byte: u8) -> Result<(), AllocError>
    ensures { OnOk result (line.new.items ≡ line.old.items ++ escaped_byte byte) }
{
    if is_plain(byte) {
        line.push(byte)?;
    } else {
        let shown = [b'\\', b'x', digit_of(byte / 16), digit_of(byte % 16)];
        line.extend_from_slice(&shown)?;
    }
    Ok(())
}

// Appends bytes as they are printed.
fn push_escaped(line: &mut Vec<u8>, bytes: &[u8]) -> Result<(), AllocError>
    ensures { OnOk result (line.new.items ≡ line.old.items ++ escaped bytes.now) }
{
    for byte in bytes {
        push_byte(line, *byte)?;
    }
    Ok(())
}

// Appends bytes in quotes, or a dash.
fn push_quoted(line: &mut Vec<u8>, value: Option<&[u8]>) -> Result<(), AllocError>
    ensures { OnOk result (line.new.items ≡ line.old.items ++ quoted (option_map (λ b. b.now) value.entry)) }
{
    line.push(b'"')?;
    match value {
        Some(bytes) => push_escaped(line, bytes)?,
        None => line.push(b'-')?,
    }
    line.push(b'"')?;
    Ok(())
}

// How a line begins.
#[derive(Clone, Copy)]
struct Start {
    address: Option<IpAddr>,
}

impl fmt::Display for Start {
    ghost output = { λ start. Some (start_string start.address) };

    fn fmt<W: fmt::Write>(&self, f: &mut fmt::Formatter<W>) -> fmt::Result {
        match &self.address {
            Some(address) => write!(f, "{address} - - ["),
            None => write!(f, "- - - ["),
        }
    }
}

// The address up to the time as a string.
fn start_of(alloc: Global, address: Option<IpAddr>) -> Result<String, AllocError>
    ensures { IfOk result (λ start. string_bytes start ≡ start_string address) }
{
    let start = Start { address };
    format!(in alloc; "{start}")
}

// What came of a message: the status of its reply, or a dash, and the size of the reply's body.
#[derive(Clone, Copy)]
struct Outcome {
    status: Option<u16>,
    size: u64,
}

impl fmt::Display for Outcome {
    ghost output = { λ outcome. Some (outcome_string outcome.status outcome.size) };

    fn fmt<W: fmt::Write>(&self, f: &mut fmt::Formatter<W>) -> fmt::Result {
        let size = self.size;
        match &self.status {
            Some(status) => write!(f, " {status} {size} "),
            None => write!(f, " - {size} "),
        }
    }
}

// The outcome as a string.
fn outcome_of(alloc: Global, status: Option<u16>, size: u64) -> Result<String, AllocError>
    ensures { IfOk result (λ outcome. string_bytes outcome ≡ outcome_string status size) }
{
    let outcome = Outcome { status, size };
    format!(in alloc; "{outcome}")
}

// rule: Line of the log
/// Returns the line of a reply.
pub(crate) fn line_of(alloc: Global, entry: &Entry<'_>) -> Result<Vec<u8>, AllocError>
    ensures { IfOk result (λ line. IsLine entry.now line.items) }
{
    let time = Time {
        seconds: entry.seconds,
    };
    let time = format!(in alloc; "{time}")?;
    let start = start_of(alloc, entry.address)?;
    let outcome = outcome_of(alloc, entry.status, entry.size)?;
    let mut line = Vec::new(alloc);
    line.extend_from_slice(start.as_str().as_bytes())?;
    push_escaped(&mut line, time.as_str().as_bytes())?;
    line.extend_from_slice(b"] ")?;
    push_quoted(&mut line, Some(entry.line))?;
    line.extend_from_slice(outcome.as_str().as_bytes())?;
    push_quoted(&mut line, entry.referrer)?;
    line.push(b' ')?;
    push_quoted(&mut line, entry.agent)?;
    line.push(b'\n')?;
    Ok(line)
}
