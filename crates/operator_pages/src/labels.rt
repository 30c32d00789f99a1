//! The labels of a metric's samples.

ghost use Rattle.std.specs.Prelude.{◌≡◌, ◌++◌, IfOk, OnOk, option_map, string_bytes};
ghost use Rattle.operator_pages.specs.Labels.{cohort_labels, escape_of, label, label_char, label_value};

use std::alloc::{AllocError, Global};

// What is in place of a character in the value of a label.
fn escape_of(c: char) -> Option<&'static str>
    ensures { option_map (λ escape. escape.now) result ≡ escape_of c }
{
    match c {
        '\\' => Some("\\\\"),
        '"' => Some("\\\""),
        '\n' => Some("\\n"),
        _ => None,
    }
}

fn push_label_char(text: &mut String, c: char) -> Result<(), AllocError>
    ensures { OnOk result (string_bytes text.new ≡ string_bytes text.old ++ label_char c) }
{
    match escape_of(c) {
        Some(escape) => text.push_str(escape),
        None => text.push(c),
    }
}

// rule: Value of a label
/// Adds a string as the value of a label has it.
pub(crate) fn push_label_value(text: &mut String, value: &str) -> Result<(), AllocError>
    ensures { OnOk result (string_bytes text.new ≡ string_bytes text.old ++ label_value value.now) }
{
    for c in value.chars() {
        push_label_char(text, c)?;
    }
    Ok(())
}

/// Writes one label between braces.
pub(crate) fn label(alloc: Global, name: &str, value: &str) -> Result<String, AllocError>
    ensures { IfOk result (λ text. string_bytes text ≡ label name.now value.now) }
{
    let mut text = String::new(alloc);
    text.push_str("{")?;
    text.push_str(name)?;
    text.push_str("=\"")?;
    push_label_value(&mut text, value)?;
    text.push_str("\"}")?;
    Ok(text)
}

/// Writes the labels of a cohort between braces: its app's and its own.
pub(crate) fn cohort_labels(alloc: Global, app: &str, cohort: &str) -> Result<String, AllocError>
    ensures { IfOk result (λ text. string_bytes text ≡ cohort_labels app.now cohort.now) }
{
    let mut text = String::new(alloc);
    text.push_str("{app=\"")?;
    push_label_value(&mut text, app)?;
    text.push_str("\",cohort=\"")?;
    push_label_value(&mut text, cohort)?;
    text.push_str("\"}")?;
    Ok(text)
}
