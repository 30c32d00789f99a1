//! The entry of a code, and the list of all.

ghost use Rattle.std.specs.Prelude.{◌≡◌, option_map};
ghost use Rattle.failures.specs.Explanations.{entries_of, explanation_of, string_in};

use crate::explanations::tables::{
    budgets, certificate_codes, edits, lines, profiles, requests, walks, words,
};
use std::alloc::{AllocError, Global};

// What a table says of a code.
fn find(table: &[(&'static str, &'static str)], code: &str) -> Option<&'static str>
    ensures { option_map (λ text. text.now) result ≡ string_in (entries_of table.now) code.now }
{
    for (name, text) in table {
        if *name == code {
            return Some(*text);
        }
    }
    None
}

// rule: Explanation of a code
/// Explains a code, or the first word of a line, that the program prints: of a failure, of a server's reply to its
/// operator, or of a report.
///
/// It has five lines: the code with its name, where it is found, the meaning, the usual cause and the remedy.
/// It is `None` if the program prints no such code.
pub fn explain(code: &str) -> Option<&'static str>
    ensures { option_map (λ text. text.now) result ≡ explanation_of code.now }
{
    find(edits(), code)
        .or(find(budgets(), code))
        .or(find(profiles(), code))
        .or(find(requests(), code))
        .or(find(certificate_codes(), code))
        .or(find(walks(), code))
        .or(find(words(), code))
        .or(find(lines(), code))
}

// The first line of each entry.
fn push_all(lines: &mut String, table: &[(&'static str, &'static str)]) -> Result<(), AllocError> {
    for (_, text) in table {
        lines.push_str(text.lines().next().unwrap_or(""))?;
        lines.push('\n')?;
    }
    Ok(())
}

/// Lists the codes and first words with their names, a line each.
pub fn list(alloc: Global) -> Result<String, AllocError> {
    let mut list = String::new(alloc);
    push_all(&mut list, edits())?;
    push_all(&mut list, budgets())?;
    push_all(&mut list, profiles())?;
    push_all(&mut list, requests())?;
    push_all(&mut list, certificate_codes())?;
    push_all(&mut list, walks())?;
    push_all(&mut list, words())?;
    push_all(&mut list, lines())?;
    Ok(list)
}
