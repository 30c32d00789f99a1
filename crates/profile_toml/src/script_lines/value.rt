//! The values of a script's keys.

ghost use Rattle.std.specs.Prelude.{◌≡◌, ◌++◌, OnOk, Some};
ghost use Rattle.std.specs.Char.{is_ascii_digit};
ghost use Rattle.std.specs.List.{list_all};
ghost use Rattle.toml_writer.specs.Text.{key_text, string_text};
ghost use Rattle.profile_toml.specs.Values.{are_names, is_bare, is_flag, is_natural, is_plain, list_string, name_bytes, value_string};

use std::alloc::{AllocError, Global};
use std::fmt;
use toml_writer::{write_key, write_string};

/// A string, which prints as TOML writes it.
#[derive(Clone, Copy)]
pub(crate) struct Quoted<'a> {
    pub string: &'a str,
}

impl fmt::Display for Quoted<'_> {
    ghost output = { λ quoted. Some (string_text quoted.string.now) };

    fn fmt<W: fmt::Write>(&self, f: &mut fmt::Formatter<W>) -> fmt::Result {
        write_string(f, self.string)
    }
}

/// A key, which prints as TOML writes it.
#[derive(Clone, Copy)]
pub(crate) struct Key<'a> {
    pub string: &'a str,
}

impl fmt::Display for Key<'_> {
    ghost output = { λ key. Some (key_text key.string.now) };

    fn fmt<W: fmt::Write>(&self, f: &mut fmt::Formatter<W>) -> fmt::Result {
        write_key(f, self.string)
    }
}

fn are_digits(value: &str) -> bool
    ensures { result ≡ list_all is_ascii_digit value.now }
{
    value.as_bytes().iter().all(|byte| byte.is_ascii_digit())
}

// Whether a value is decimal digits, at least one.
fn is_natural(value: &str) -> bool
    ensures { result ≡ is_natural value.now }
{
    !value.is_empty() && are_digits(value)
}

fn is_flag(value: &str) -> bool
    ensures { result ≡ is_flag value.now }
{
    value == "true" || value == "false"
}

// Whether a key's value is written without quotes.
fn is_bare(key: &str, value: &str) -> bool
    ensures { result ≡ is_bare key.now value.now }
{
    if key == "size" || key == "share" {
        return is_natural(value);
    }
    key == "on" && is_flag(value)
}

// Whether a byte is the same between quotes.
fn is_plain(byte: u8) -> bool
    ensures { result ≡ is_plain byte }
{
    byte.is_ascii_graphic() && byte != b'"' && byte != b'\\'
}

fn are_plain(value: &str) -> bool
    ensures { result ≡ list_all is_plain value.now }
{
    value.as_bytes().iter().all(|byte| is_plain(*byte))
}

// Whether a key's value is a list of names.
fn are_names(key: &str, value: &str) -> bool
    ensures { result ≡ are_names key.now value.now }
{
    key == "cohorts" && are_plain(value)
}

// Adds a byte of a list of names: a comma is between two of them.
fn push_name_byte(text: &mut Vec<u8>, byte: u8) -> Result<(), AllocError>
    ensures { OnOk result (text.new.items ≡ text.old.items ++ name_bytes byte) }
{
    if byte == b',' {
        return text.extend_from_slice(b"\", \"");
    }
    text.push(byte)?;
    Ok(())
}

// Adds the list of the names that commas are between.
fn push_names(text: &mut Vec<u8>, value: &str) -> Result<(), AllocError>
    ensures { OnOk result (text.new.items ≡ text.old.items ++ list_string value.now) }
{
    if value.is_empty() {
        return text.extend_from_slice(b"[]");
    }
    text.extend_from_slice(b"[\"")?;
    for byte in value.as_bytes() {
        push_name_byte(text, *byte)?;
    }
    text.extend_from_slice(b"\"]")
}

// rule: Value of a script's key
/// Adds the value of a key.
pub(crate) fn push_value(
    alloc: Global,
    text: &mut Vec<u8>,
    key: &str,
    value: &str,
) -> Result<(), AllocError>
    ensures { OnOk result (text.new.items ≡ text.old.items ++ value_string key.now value.now) }
{
    if is_bare(key, value) {
        return text.extend_from_slice(value.as_bytes());
    }
    if are_names(key, value) {
        return push_names(text, value);
    }
    let quoted = Quoted { string: value };
    let quoted = format!(in alloc; "{quoted}")?;
    text.extend_from_slice(quoted.as_bytes())
}
