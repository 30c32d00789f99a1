//! Strings within quotes of DOT.

ghost use Rattle.std.specs.Prelude.{◌≡◌, ◌++◌, IfOk, OnOk, option_map, string_bytes};
ghost use Rattle.reviews.specs.Dot.{quoted_char, quoted_of, quoted_string};

use std::alloc::{AllocError, Global};

// What is in place of a character that DOT reads otherwise.
fn quoted_of(c: char) -> Option<&'static str>
    ensures { option_map (λ there. there.now) result ≡ quoted_of c }
{
    match c {
        '"' => Some("\\\""),
        '\\' => Some("\\\\"),
        '&' => Some("&amp;"),
        _ => None,
    }
}

fn push_char(text: &mut String, c: char) -> Result<(), AllocError>
    ensures { OnOk result (string_bytes text.new ≡ string_bytes text.old ++ quoted_char c) }
{
    match quoted_of(c) {
        Some(there) => text.push_str(there),
        None => text.push(c),
    }
}

// rule: Quoted string of DOT
/// Returns a string as a label in quotes has it: a backslash before each quote and backslash, and `&amp;` for `&`.
pub(crate) fn quoted(alloc: Global, value: &str) -> Result<String, AllocError>
    ensures { IfOk result (λ text. string_bytes text ≡ quoted_string value.now) }
{
    let mut text = String::new(alloc);
    for c in value.chars() {
        push_char(&mut text, c)?;
    }
    Ok(text)
}
