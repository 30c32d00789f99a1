//! The last publishes.

ghost use Rattle.std.specs.Prelude.{◌≡◌, ◌≤◌, ◌++◌, [], OnOk, length, string_bytes};
ghost use Rattle.operator_pages.specs.Publishes.{edition_cell, publish_end, publish_row, publish_rows, publish_table, publishes_section, with_publish};

use crate::headings::{NO_PUBLISHES, PUBLISHES, TABLE_END};
use crate::html::push_number_cell;
use std::alloc::AllocError;
use std::fmt::Write;
use std::marker::Model;

/// How many publishes are kept.
const MAX_PUBLISHES: usize = 10;

/// A publish: of an operator of this server, or of another server's.
#[derive(Clone, Copy)]
pub struct Publish {
    /// The number of the edition.
    pub edition: u64,
    /// When it was published, in seconds since 1970.
    pub time: u64,
    /// How many edits its script has.
    pub edits: u64,
    /// Whether another server kept the script, and this one adopted it.
    pub adopted: bool,
}

/// The last publishes, the newest first, which contracts see as their list.
#[derive(Drop)]
pub struct Publishes {
    kept: [Publish; MAX_PUBLISHES],
    many: usize,
    ghost places: { length kept ≡ 10 },
    ghost few: { many ≤ 10 },
}

impl Model for Publishes {
    ghost use Rattle.std.specs.Prelude.{List, take};
    ghost use Rattle.operator_pages.specs.declared.publishes.Publish.{Publish};

    ghost Value = { List Publish };

    ghost view = { λ publishes. take publishes.many publishes.kept };
}

impl Publishes {
    /// Begins with no publish.
    pub fn new() -> Publishes
        ensures { result ≡ [] }
    {
        let none = Publish {
            edition: 0,
            time: 0,
            edits: 0,
            adopted: false,
        };
        Publishes {
            kept: [none; MAX_PUBLISHES],
            many: 0,
        }
    }

    // rule: Last publishes
    /// Adds a publish before the others, of which it keeps the nine newest.
    pub fn push(&mut self, publish: Publish)
        ensures { self.new ≡ with_publish publish self.old }
    {
        let k = self.kept;
        self.kept = [
            publish, k[0], k[1], k[2], k[3], k[4], k[5], k[6], k[7], k[8],
        ];
        self.many = (self.many + 1).min(MAX_PUBLISHES);
    }

    /// Borrows the publishes.
    pub fn as_slice(&self) -> &[Publish]
        ensures { result.now ≡ self.now }
    {
        &self.kept[..self.many]
    }
}

#[tactic(auto, unfolding(crate::specs::Publishes::edition_cell))]
fn push_edition(text: &mut String, edition: u64) -> Result<(), AllocError>
    ensures { OnOk result (string_bytes text.new ≡ string_bytes text.old ++ edition_cell edition) }
{
    write!(text, "<th>{edition}</th>")
}

// The end of a row, before which an adopted publish is marked.
fn publish_end(adopted: bool) -> &'static str
    ensures { result.now ≡ publish_end adopted }
{
    if adopted {
        "<td><span class=\"tag\">adopted</span></td></tr>\n"
    } else {
        "</tr>\n"
    }
}

// rule: Row of a publish
#[tactic(auto, unfolding(crate::specs::Publishes::publish_row))]
fn push_publish(text: &mut String, publish: &Publish) -> Result<(), AllocError>
    ensures { OnOk result (string_bytes text.new ≡ string_bytes text.old ++ publish_row publish.now) }
{
    text.push_str("<tr>")?;
    push_edition(text, publish.edition)?;
    push_number_cell(text, publish.time)?;
    push_number_cell(text, publish.edits)?;
    text.push_str(publish_end(publish.adopted))
}

fn push_publish_rows(text: &mut String, publishes: &[Publish]) -> Result<(), AllocError>
    ensures { OnOk result (string_bytes text.new ≡ string_bytes text.old ++ publish_rows publishes.now) }
{
    for publish in publishes {
        push_publish(text, publish)?;
    }
    Ok(())
}

#[tactic(auto, unfolding(crate::specs::Publishes::publish_table))]
fn push_publish_table(text: &mut String, publishes: &[Publish]) -> Result<(), AllocError>
    ensures { OnOk result (string_bytes text.new ≡ string_bytes text.old ++ publish_table publishes.now) }
{
    text.push_str(PUBLISHES)?;
    push_publish_rows(text, publishes)?;
    text.push_str(TABLE_END)?;
    text.push_str("</section>\n")
}

/// Adds the section of the last publishes.
#[tactic(auto, unfolding(crate::specs::Publishes::publishes_section))]
pub(crate) fn push_publishes(text: &mut String, publishes: &[Publish]) -> Result<(), AllocError>
    ensures { OnOk result (string_bytes text.new ≡ string_bytes text.old ++ publishes_section publishes.now) }
{
    if publishes.len() == 0 {
        text.push_str(NO_PUBLISHES)
    } else {
        push_publish_table(text, publishes)
    }
}
