// Records as lines.

ghost use Rattle.std.specs.Prelude.{◌≡◌, ◌+◌, ◌≤◌, ◌^◌, ◌++◌, IfOk, IfSome, Some, string_bytes};
ghost use Rattle.std.specs.Option.{is_some};
ghost use Rattle.std.specs.Str.{is_utf8};
ghost use Rattle.std.specs.Str.Lines.{strip_carriage_return};
ghost use Rattle.omaha_histories.specs.Listing.{before_feed, first_line, kind_word, listing, record_line, words_line};

use crate::restarts::prefixes::edition_of;
use kept_records::{Kind, Record};
use std::alloc::{AllocError, Global};
use std::{fmt, str};
use streams::Shown;

fn kind_word(kind: Kind) -> &'static str
    ensures { result.now ≡ kind_word kind }
{
    match kind {
        Kind::Profile => "profile",
        Kind::Script => "script",
        Kind::Raise => "raise",
    }
}

// The bytes as a string, if they are UTF-8.
fn as_string(bytes: &[u8]) -> Option<&str>
    ensures same { IfSome result (λ string. string.now ≡ bytes.now) }
    ensures utf8 { is_some result ≡ is_utf8 bytes.now }
{
    match str::from_utf8(bytes) {
        Ok(string) => Some(string),
        Err(_) => None,
    }
}

// What is before the first line feed.
fn before_feed(text: &str) -> &str
    ensures { result.now ≡ before_feed text.now }
{
    match text.split_once('\n') {
        Some((line, _others)) => line,
        None => text,
    }
}

// A line without the carriage return at its end.
fn without_return(line: &str) -> &str
    ensures { result.now ≡ strip_carriage_return line.now }
{
    match line.strip_suffix('\r') {
        Some(start) => start,
        None => line,
    }
}

// The first line of what is UTF-8, without its end, else nothing.
fn first_line(bytes: &[u8]) -> &str
    ensures { result.now ≡ first_line bytes.now }
{
    match as_string(bytes) {
        Some(text) => without_return(before_feed(text)),
        None => "",
    }
}

// What is listed of a record.
#[derive(Clone, Copy)]
struct RecordLine<'a> {
    number: u64,
    kind: &'a str,
    length: usize,
    edition: u64,
    string: &'a str,
}

impl fmt::Display for RecordLine<'_> {
    ghost output = { λ line. Some (words_line line.number line.kind.now line.length line.edition line.string.now) };

    fn fmt<W: fmt::Write>(&self, f: &mut fmt::Formatter<W>) -> fmt::Result {
        let number = self.number;
        let kind = self.kind;
        let length = self.length;
        let edition = self.edition;
        let line = Shown {
            string: self.string,
        };
        write!(f, "{number} {kind} {length} {edition} {line}\n")
    }
}

// The line of a record, as a string.
fn line_of(alloc: Global, number: u64, edition: u64, entry: &Record) -> Result<String, AllocError>
    ensures { IfOk result (λ text. string_bytes text ≡ record_line number edition entry.now) }
{
    let line = RecordLine {
        number,
        kind: kind_word(entry.kind),
        length: entry.bytes.len(),
        edition,
        string: first_line(entry.bytes.as_slice()),
    };
    format!(in alloc; "{line}")
}

// rule: Listed records
/// The lines of records, of which the first has this number, from 1 to 2^53: of each its number, its kind, how many bytes
/// it has, the edition that is then published, and the first line of the bytes without its end and control characters.
pub fn list(alloc: Global, first: u64, records: &[Record]) -> Result<String, AllocError>
    requires { (1 ≤ first) × (first ≤ 2 ^ 53) }
    ensures { IfOk result (λ text. string_bytes text ≡ listing first records.now) }
{
    let mut text = String::new(alloc);
    let mut edition = first - 1;
    for index in 0..records.len() {
        let entry = &records[index];
        edition += edition_of(entry.kind);
        let number = first + index as u64;
        let line = line_of(alloc, number, edition, entry)?;
        text.push_str(line.as_str())?;
    }
    Ok(text)
}
