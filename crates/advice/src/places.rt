//! The lines of a file, and where a key is among them.

ghost use Rattle.std.specs.Prelude.{◌≡◌, ◌<◌, ◌≤◌, drop, length, map, option_map, IfOk, IfSome};
ghost use Rattle.std.specs.Str.Lines.{lines};
ghost use Rattle.std.specs.List.{after_first, before_first};
ghost use Rattle.advice.specs.Places.{Found, begins, begins_table, found_seen, has_apostrophe, has_quote, header_after, is_apostrophe, is_equals, is_quote, key_after, key_of, shortened, string_in, value_of};

use std::alloc::{AllocError, Global};

// How many bytes of a value are said.
const MAX_VALUE: usize = 300;

/// The lines of a string.
pub(crate) fn lines_of<'t>(alloc: Global, text: &'t str) -> Result<Vec<&'t str>, AllocError>
    ensures { IfOk result (λ found. map (λ line. line.now) found.items ≡ lines text.now) }
{
    text.lines().collect(alloc)
}

fn begins(header: &str, line: &str) -> bool
    ensures { result ≡ begins header.now line.now }
{
    line.trim().as_bytes().starts_with(header.as_bytes())
}

fn begins_table(line: &str) -> bool
    ensures { result ≡ begins_table line.now }
{
    line.trim().as_bytes().starts_with(b"[")
}

// What is before and after the first equals sign.
fn split_equals(line: &str) -> (&str, &str)
    ensures before { result.0.now ≡ before_first is_equals line.now }
    ensures after { result.1.now ≡ after_first is_equals line.now }
{
    match line.split_once('=') {
        Some(parts) => parts,
        None => (line, ""),
    }
}

// A value, or dots for one of more than 300 bytes.
fn shortened(value: &str) -> &str
    ensures { result.now ≡ shortened value.now }
{
    if value.len() > MAX_VALUE { ".." } else { value }
}

// The key and the value of a line.
fn split_line(line: &str) -> (&str, &str)
    ensures key { result.0.now ≡ key_of line.now }
    ensures value { result.1.now ≡ value_of line.now }
{
    let (key, value) = split_equals(line);
    (key.trim(), shortened(value.trim()))
}

// What is before and after the first quote.
fn split_quote(text: &str) -> (&str, &str)
    ensures before { result.0.now ≡ before_first is_quote text.now }
    ensures after { result.1.now ≡ after_first is_quote text.now }
{
    match text.split_once('"') {
        Some(parts) => parts,
        None => (text, ""),
    }
}

// What is before and after the first apostrophe.
fn split_apostrophe(text: &str) -> (&str, &str)
    ensures before { result.0.now ≡ before_first is_apostrophe text.now }
    ensures after { result.1.now ≡ after_first is_apostrophe text.now }
{
    match text.split_once('\'') {
        Some(parts) => parts,
        None => (text, ""),
    }
}

/// Whether a value begins with a quote.
pub(crate) fn has_quote(value: &str) -> bool
    ensures { result ≡ has_quote value.now }
{
    value.as_bytes().starts_with(b"\"")
}

/// Whether a value begins with an apostrophe.
pub(crate) fn has_apostrophe(value: &str) -> bool
    ensures { result ≡ has_apostrophe value.now }
{
    value.as_bytes().starts_with(b"'")
}

// rule: String of a value
/// What is in the quotes or the apostrophes that a value begins with, else nothing.
pub(crate) fn string_in(value: &str) -> &str
    ensures { result.now ≡ string_in value.now }
{
    if has_quote(value) {
        split_quote(split_quote(value).1).0
    } else if has_apostrophe(value) {
        split_apostrophe(split_apostrophe(value).1).0
    } else {
        ""
    }
}

// rule: Line of a table
/// The index of the line, from one of them on, that begins with a header after so many that do.
pub(crate) fn header_from(
    lines: &[&str],
    header: &str,
    from: usize,
    skipped: usize,
) -> Option<usize>
    requires { from ≤ length lines.now }
    ensures found { result ≡ header_after header.now from skipped (map (λ line. line.now) (drop from lines.now)) }
    ensures after { IfSome result (λ index. from ≤ index) }
    ensures within { IfSome result (λ index. index < length lines.now) }
{
    let mut left = skipped;
    for index in from..lines.len() {
        if begins(header, lines[index]) {
            if left == 0 {
                return Some(index);
            }
            left -= 1;
        }
    }
    None
}

/// A line, from 1, and the value that it sets.
#[derive(Clone, Copy)]
pub(crate) struct FoundKey<'t> {
    pub line: usize,
    pub value: &'t str,
}

// rule: Line of a key
/// The first line, from one of them on, that sets a key, before the next table.
pub(crate) fn key_from<'t>(lines: &[&'t str], key: &str, from: usize) -> Option<FoundKey<'t>>
    requires { from ≤ length lines.now }
    ensures { option_map found_seen result
        ≡ key_after key.now from (map (λ line. line.now) (drop from lines.now)) }
{
    for index in from..lines.len() {
        if begins_table(lines[index]) {
            return None;
        }
        let (name, value) = split_line(lines[index]);
        if name == key {
            return Some(FoundKey {
                line: index + 1,
                value,
            });
        }
    }
    None
}
