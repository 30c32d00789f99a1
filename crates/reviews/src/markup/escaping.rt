//! Strings within XML and HTML.

ghost use Rattle.std.specs.Prelude.{◌≡◌, ◌++◌, IfOk, OnOk, option_map, string_bytes};
ghost use Rattle.reviews.specs.Escaping.{entity_of, escaped_char, escaped_string, is_unwritable, mark_of};

use std::alloc::{AllocError, Global};

// Whether a character is one that XML forbids or advises against.
fn is_unwritable(c: char) -> bool
    ensures { result ≡ is_unwritable c }
{
    let code = c as u32;
    code < 32 || (126 < code && code < 160) || code == 0xFFFE || code == 0xFFFF
}

// The entity in place of a character of markup.
fn entity_of(c: char) -> Option<&'static str>
    ensures { option_map (λ entity. entity.now) result ≡ entity_of c }
{
    match c {
        '&' => Some("&amp;"),
        '<' => Some("&lt;"),
        '>' => Some("&gt;"),
        '"' => Some("&quot;"),
        '\'' => Some("&#39;"),
        _ => None,
    }
}

// The character that is written in place of another without an entity.
fn mark_of(c: char) -> char
    ensures { result ≡ mark_of c }
{
    if is_unwritable(c) { '\u{FFFD}' } else { c }
}

fn push_char(text: &mut String, c: char) -> Result<(), AllocError>
    ensures { OnOk result (string_bytes text.new ≡ string_bytes text.old ++ escaped_char c) }
{
    match entity_of(c) {
        Some(entity) => text.push_str(entity),
        None => text.push(mark_of(c)),
    }
}

// rule: Escaped string
/// Appends a string as the content of an element or the value of a quoted attribute has it, in XML and in HTML.
///
/// Entities are in place of `&`, `<`, `>`, `"` and `'`, and U+FFFD in place of each control character, U+FFFE and
/// U+FFFF. Out of memory is the only error.
pub fn push_escaped(text: &mut String, value: &str) -> Result<(), AllocError>
    ensures { OnOk result (string_bytes text.new ≡ string_bytes text.old ++ escaped_string value.now) }
{
    for c in value.chars() {
        push_char(text, c)?;
    }
    Ok(())
}

/// Returns a string as the content of an element or the value of a quoted attribute has it, in XML and in HTML.
///
/// Entities are in place of `&`, `<`, `>`, `"` and `'`, and U+FFFD in place of each control character, U+FFFE and
/// U+FFFF. Out of memory is the only error.
pub fn escaped(alloc: Global, value: &str) -> Result<String, AllocError>
    ensures { IfOk result (λ text. string_bytes text ≡ escaped_string value.now) }
{
    let mut text = String::new(alloc);
    push_escaped(&mut text, value)?;
    Ok(text)
}
