//! Faults of profiles and scripts that are no entry's.

ghost use Rattle.std.specs.Prelude.{◌≡◌, ◌≤◌, ◌++◌, IfOk, IfSome, None, Some, codes, decimal, length, map, string_bytes, take};
ghost use Rattle.std.specs.List.{list_all};
ghost use Rattle.streams.specs.Strings.{shown_string};
ghost use Rattle.toml.specs.Errors.{IsWithin};
ghost use Rattle.advice.specs.Entries.{place_string};
ghost use Rattle.advice.specs.Faults.{IsTomlAdvice, codebase_in, count_advice, is_base, is_codebase, is_continuation, is_name_byte, is_string, mirror_advice, mirror_at, mirror_string, name_in, place_after, point_string, utf8_advice, values_string, wrong_from, wrong_string};
ghost use Rattle.advice.specs.Places.{string_in};

use crate::entries::Place;
use crate::places::{has_apostrophe, has_quote, string_in};
use crate::spots::{first_in, value_from};
use crate::tables::Kind;
use std::alloc::{AllocError, Global};
use std::fmt;
use streams::Shown;

fn is_continuation(byte: u8) -> bool
    ensures { result ≡ is_continuation byte }
{
    127 < byte && byte < 192
}

// rule: Line and column
// The line and the column after some bytes, both from 1.
fn place_after(bytes: &[u8]) -> (u128, u128)
    ensures { (result.0, result.1) ≡ place_after 1 1 bytes.now }
{
    let mut line = 1;
    let mut column = 1;
    for byte in bytes {
        if *byte == b'\n' {
            line += 1;
            column = 1;
        } else if !is_continuation(*byte) {
            column += 1;
        }
    }
    (line, column)
}

// A file with a line and a column.
#[derive(Clone, Copy)]
struct Point<'a> {
    file: &'a str,
    line: u128,
    column: u128,
}

impl fmt::Display for Point<'_> {
    ghost output = { λ point. Some (point_string point.file.now (point.line, point.column)) };

    fn fmt<W: fmt::Write>(&self, f: &mut fmt::Formatter<W>) -> fmt::Result {
        let file = Shown { string: self.file };
        let (line, column) = (self.line, self.column);
        write!(f, "{file}:{line}:{column}: ")
    }
}

// Says where the library can't read a string, and why.
fn say_toml(alloc: Global, file: &str, before: &[u8], why: &str) -> Result<String, AllocError>
    ensures { IfOk result (λ said. string_bytes said
        ≡ point_string file.now (place_after 1 1 before.now) ++ (shown_string why.now ++ codes " (omaha explain F1)")) }
{
    let (line, column) = place_after(before);
    let point = Point { file, line, column };
    let why = Shown { string: why };
    format!(in alloc; "{point}{why} (omaha explain F1)")
}

// Says where an error of the library is.
fn at_error(alloc: Global, file: &str, text: &str, error: &toml::de::Error) -> Option<String>
    requires { IsWithin text.now error.now }
    ensures { IfSome result (λ said. IsTomlAdvice file.now text.now (string_bytes said)) }
{
    let range = error.span()?;
    say_toml(
        alloc,
        file,
        &text.as_bytes()[..range.start],
        error.message(),
    )
    .ok()
}

// rule: Advice on a document that is no TOML
/// Says where a string is no TOML, and why; nothing if it is.
pub(crate) fn toml_advice(alloc: Global, file: &str, text: &str) -> Option<String>
    ensures { IfSome result (λ said. IsTomlAdvice file.now text.now (string_bytes said)) }
{
    match toml::table_from_str(alloc, text) {
        Ok(_) => None,
        Err(error) => at_error(alloc, file, text, &error),
    }
}

/// Says that bytes aren't UTF-8.
pub(crate) fn utf8_advice(alloc: Global, file: &str) -> Result<String, AllocError>
    ensures { IfOk result (λ said. string_bytes said ≡ utf8_advice file.now) }
{
    let place = Place { file, line: None };
    format!(in alloc; "{place}it is no UTF-8: save it as UTF-8 (omaha explain F1)")
}

/// Says that a script has too many edits.
pub(crate) fn count_advice(alloc: Global, file: &str) -> Result<String, AllocError>
    ensures { IfOk result (λ said. string_bytes said ≡ count_advice file.now) }
{
    let place = Place { file, line: None };
    format!(in alloc;
        "{place}a script has at most 4096 edits: publish the others by a second one (omaha explain F5)"
    )
}

fn is_string(value: &str) -> bool
    ensures { result ≡ is_string value.now }
{
    has_quote(value) || has_apostrophe(value)
}

fn is_base(string: &str) -> bool
    ensures { result ≡ is_base string.now }
{
    let bytes = string.as_bytes();
    bytes.starts_with(b"http://") && bytes.ends_with(b"/")
}

fn is_codebase(value: &str) -> bool
    ensures { result ≡ is_codebase value.now }
{
    !is_string(value) || is_base(string_in(value))
}

fn is_name_byte(byte: u8) -> bool
    ensures { result ≡ is_name_byte byte }
{
    byte.is_ascii_lowercase() || byte.is_ascii_digit() || byte == b'-'
}

fn are_name_bytes(string: &str) -> bool
    ensures { result ≡ list_all is_name_byte string.now }
{
    string.as_bytes().iter().all(|byte| is_name_byte(*byte))
}

/// What is wrong with a mirror.
#[derive(Clone, Copy)]
pub(crate) enum MirrorFault<'a> {
    Missing,
    Fifth,
    Codebase(&'a str),
    Name(&'a str),
    Other,
}

impl fmt::Display for MirrorFault<'_> {
    ghost output = { λ fault. Some (mirror_string fault) };

    fn fmt<W: fmt::Write>(&self, f: &mut fmt::Formatter<W>) -> fmt::Result {
        match self {
            MirrorFault::Missing => f.write_str(
                "a profile has 1 to 4 mirrors, and their codebases begin with http:// and end with /",
            ),
            MirrorFault::Fifth => f.write_str("a profile has at most 4 mirrors"),
            MirrorFault::Codebase(value) => {
                let value = Shown { string: value };
                write!(
                    f,
                    "codebase is \"{value}\": it begins with http:// and ends with /"
                )
            }
            MirrorFault::Name(value) => {
                let value = Shown { string: value };
                write!(f, "name is \"{value}\": a name is 1 to 32 of a-z 0-9 -")
            }
            MirrorFault::Other => f.write_str(
                "a name is 1 to 32 of a-z 0-9 - and no other mirror's, a codebase at most 256 visible characters, a budget at most 1152921504606846976",
            ),
        }
    }
}

// What is wrong with a mirror, by the values of its codebase and its name.
#[tactic(auto, unfolding(crate::specs::Faults::values_string))]
fn fault_of_values<'a>(codebase: &'a str, name: &'a str) -> MirrorFault<'a>
    ensures { mirror_string result ≡ values_string codebase.now name.now }
{
    if !is_codebase(codebase) {
        MirrorFault::Codebase(string_in(codebase))
    } else if !are_name_bytes(string_in(name)) {
        MirrorFault::Name(string_in(name))
    } else {
        MirrorFault::Other
    }
}

#[tactic(auto, unfolding(crate::specs::Faults::codebase_in))]
fn codebase_in<'t>(lines: &[&'t str], first: usize) -> &'t str
    requires { first ≤ length lines.now }
    ensures { result.now ≡ codebase_in (map (λ line. line.now) lines.now) first }
{
    value_from(lines, "codebase", Some(first))
}

#[tactic(auto, unfolding(crate::specs::Faults::name_in))]
fn name_in<'t>(lines: &[&'t str], first: usize) -> &'t str
    requires { first ≤ length lines.now }
    ensures { result.now ≡ name_in (map (λ line. line.now) lines.now) first }
{
    value_from(lines, "name", Some(first))
}

// What is wrong with a mirror, by its index and the line after its header.
fn fault_from<'t>(lines: &[&'t str], index: usize, first: usize) -> MirrorFault<'t>
    requires { first ≤ length lines.now }
    ensures { mirror_string result ≡ wrong_from (map (λ line. line.now) lines.now) index first }
{
    if index == 4 {
        return MirrorFault::Fifth;
    }
    fault_of_values(codebase_in(lines, first), name_in(lines, first))
}

fn fault_of_mirror<'t>(lines: &[&'t str], index: usize, first: Option<usize>) -> MirrorFault<'t>
    requires { IfSome first (λ at. at ≤ length lines.now) }
    ensures { mirror_string result ≡ wrong_string (map (λ line. line.now) lines.now) index first }
{
    match first {
        None => MirrorFault::Missing,
        Some(first) => fault_from(lines, index, first),
    }
}

fn say_mirror(
    alloc: Global,
    place: &Place<'_>,
    index: usize,
    fault: &MirrorFault<'_>,
) -> Result<String, AllocError>
    ensures { IfOk result (λ said. string_bytes said ≡ place_string place.now.file.now place.now.line
        ++ (codes "mirror[" ++ (decimal index ++ (codes "]: " ++ (mirror_string fault.now ++ codes " (omaha explain F4)"))))) }
{
    format!(in alloc; "{place}mirror[{index}]: {fault} (omaha explain F4)")
}

// rule: Advice on a mirror
/// Says on which line the mirror of an index is, and which key is invalid.
pub(crate) fn mirror_advice(
    alloc: Global,
    file: &str,
    lines: &[&str],
    index: usize,
) -> Result<String, AllocError>
    ensures { IfOk result (λ said. string_bytes said
        ≡ mirror_advice file.now (map (λ line. line.now) lines.now) index) }
{
    let first = first_in(lines, Kind::Mirror, index, 0);
    let fault = fault_of_mirror(lines, index, first);
    say_mirror(alloc, &Place { file, line: first }, index, &fault)
}
