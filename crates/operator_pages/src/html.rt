//! Cells and tags of the page.

ghost use Rattle.std.specs.Prelude.{◌≡◌, ◌++◌, IfOk, OnOk, string_bytes};
ghost use Rattle.operator_pages.specs.Html.{bar, bar_part, bar_whole, cell, name_cell, number_cell, share_cell, share_string, tag_if, tag_word, named_tag, version_or};

use catalogue::Version;
use reviews::push_escaped;
use std::alloc::{AllocError, Global};
use std::fmt::Write;

/// Adds a cell of a table with a string.
#[tactic(auto, unfolding(crate::specs::Html::cell))]
pub(crate) fn push_cell(text: &mut String, value: &str) -> Result<(), AllocError>
    ensures { OnOk result (string_bytes text.new ≡ string_bytes text.old ++ cell value.now) }
{
    text.push_str("<td>")?;
    push_escaped(text, value)?;
    text.push_str("</td>")
}

/// Adds a cell of a table that names its row.
#[tactic(auto, unfolding(crate::specs::Html::name_cell))]
pub(crate) fn push_name_cell(text: &mut String, value: &str) -> Result<(), AllocError>
    ensures { OnOk result (string_bytes text.new ≡ string_bytes text.old ++ name_cell value.now) }
{
    text.push_str("<th>")?;
    push_escaped(text, value)?;
    text.push_str("</th>")
}

/// Adds a cell of a table with a number.
#[tactic(auto, unfolding(crate::specs::Html::number_cell))]
pub(crate) fn push_number_cell(text: &mut String, number: u64) -> Result<(), AllocError>
    ensures { OnOk result (string_bytes text.new ≡ string_bytes text.old ++ number_cell number) }
{
    write!(text, "<td class=\"number\">{number}</td>")
}

/// Adds a tag with a string.
#[tactic(auto, unfolding(crate::specs::Html::named_tag))]
pub(crate) fn push_named_tag(text: &mut String, word: &str, value: &str) -> Result<(), AllocError>
    ensures { OnOk result (string_bytes text.new ≡ string_bytes text.old ++ named_tag word.now value.now) }
{
    text.push_str("<span class=\"tag\">")?;
    text.push_str(word)?;
    push_escaped(text, value)?;
    text.push_str("</span>")
}

/// What a tag says of a cohort or of a release.
#[derive(Clone, Copy)]
pub(crate) enum Tag {
    /// A client's hint may name the cohort.
    Open,
    /// The cohort's clients may be downgraded.
    Rollback,
    /// The release is offered to nobody.
    Withdrawn,
    /// No payload may jump the release.
    Stone,
}

fn tag_word(tag: Tag) -> &'static str
    ensures { result.now ≡ tag_word tag }
{
    match tag {
        Tag::Open => "open",
        Tag::Rollback => "rollback",
        Tag::Withdrawn => "withdrawn",
        Tag::Stone => "stone",
    }
}

/// Adds a tag, if it is so.
#[tactic(auto, unfolding(crate::specs::Html::tag_if))]
pub(crate) fn push_tag_if(text: &mut String, is_so: bool, tag: Tag) -> Result<(), AllocError>
    ensures { OnOk result (string_bytes text.new ≡ string_bytes text.old ++ tag_if is_so tag) }
{
    if is_so {
        let word = tag_word(tag);
        write!(text, "<span class=\"tag {word}\">{word}</span>")?;
    }
    Ok(())
}

#[tactic(auto, unfolding(crate::specs::Html::bar_part))]
fn push_bar_part(text: &mut String, part: u64) -> Result<(), AllocError>
    ensures { OnOk result (string_bytes text.new ≡ string_bytes text.old ++ bar_part part) }
{
    write!(
        text,
        "<td class=\"share\"><span class=\"bar\"><span style=\"width:calc(100%*{part}"
    )
}

#[tactic(auto, unfolding(crate::specs::Html::bar_whole))]
fn push_bar_whole(text: &mut String, whole: u64) -> Result<(), AllocError>
    ensures { OnOk result (string_bytes text.new ≡ string_bytes text.old ++ bar_whole whole) }
{
    write!(text, "/max(1,{whole}))\"></span></span>")
}

/// Begins a cell of a table by a bar, of which a part of a whole is filled.
#[tactic(auto, unfolding(crate::specs::Html::bar))]
pub(crate) fn push_bar(text: &mut String, part: u64, whole: u64) -> Result<(), AllocError>
    ensures { OnOk result (string_bytes text.new ≡ string_bytes text.old ++ bar part whole) }
{
    push_bar_part(text, part)?;
    push_bar_whole(text, whole)
}

#[tactic(auto, unfolding(crate::specs::Html::share_string))]
fn push_share_string(text: &mut String, share: u64) -> Result<(), AllocError>
    ensures { OnOk result (string_bytes text.new ≡ string_bytes text.old ++ share_string share) }
{
    write!(text, "{share} of 1000</td>")
}

/// Adds a cell of a table with a share of 1000 clients, and a bar of as many of them.
#[tactic(auto, unfolding(crate::specs::Html::share_cell))]
pub(crate) fn push_share_cell(text: &mut String, share: u64) -> Result<(), AllocError>
    ensures { OnOk result (string_bytes text.new ≡ string_bytes text.old ++ share_cell share) }
{
    push_bar(text, share, 1000)?;
    push_share_string(text, share)
}

/// A version, or that there is none.
pub(crate) fn version_or(alloc: Global, version: &Option<Version>) -> Result<String, AllocError>
    ensures { IfOk result (λ text. string_bytes text ≡ version_or version.now) }
{
    match version {
        Some(version) => format!(in alloc; "{version}"),
        None => format!(in alloc; "none"),
    }
}
