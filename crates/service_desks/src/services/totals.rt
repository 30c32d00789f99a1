// The lines of the mirrors' totals.

ghost use Rattle.std.specs.Prelude.{◌≡◌, IfOk, Some, string_bytes};
ghost use Rattle.service_desks.specs.Totals.{names_of, total_line, totals_string};

use catalogue::Mirror;
use std::alloc::{AllocError, Global};
use std::fmt;
use values::{Items, Text};

/// The names of mirrors.
pub fn names_of(alloc: Global, mirrors: &[Mirror]) -> Result<Items<Text>, AllocError>
    ensures { IfOk result (λ names. names ≡ names_of mirrors.now) }
{
    let mut names = Items::empty(alloc);
    for mirror in mirrors {
        names.push(mirror.name.clone()?)?;
    }
    Ok(names)
}

// The line of a mirror: its name and its total.
#[derive(Clone, Copy)]
struct TotalLine<'a> {
    name: &'a str,
    total: u64,
}

impl fmt::Display for TotalLine<'_> {
    ghost output = { λ line. Some (total_line (line.name.now, line.total)) };

    fn fmt<W: fmt::Write>(&self, f: &mut fmt::Formatter<W>) -> fmt::Result {
        let name = self.name;
        let total = self.total;
        write!(f, "{name} {total}\n")
    }
}

// The line of a mirror, as a string.
fn line_of(alloc: Global, name: &str, total: u64) -> Result<String, AllocError>
    ensures { IfOk result (λ line. string_bytes line ≡ total_line (name.now, total)) }
{
    let line = TotalLine { name, total };
    format!(in alloc; "{line}")
}

// rule: Lines of the totals
/// The lines of the mirrors of those names.
pub fn totals_string(alloc: Global, names: &[Text], totals: &[u64]) -> Result<String, AllocError>
    ensures { IfOk result (λ text. string_bytes text ≡ totals_string names.now totals.now) }
{
    let mut text = String::new(alloc);
    for index in 0..names.len().min(totals.len()) {
        let line = line_of(alloc, names[index].as_str(), totals[index])?;
        text.push_str(line.as_str())?;
    }
    Ok(text)
}
