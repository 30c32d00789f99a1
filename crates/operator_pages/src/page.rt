//! The page of the published edition, for people.

ghost use Rattle.std.specs.Prelude.{◌≡◌, ◌++◌, IfOk, OnOk, string_bytes};
ghost use Rattle.operator_pages.specs.Pages.{document_head, header, heading, main_of, page_string, sections_of, title};

use crate::headings::{END, HEAD};
use crate::publishes::push_publishes;
use crate::sections::{push_apps, push_calls, push_mirror_section, push_reach};
use crate::shown::Shown;
use crate::style::STYLE;
use reviews::push_escaped;
use std::alloc::{AllocError, Global};
use std::fmt::Write;

#[tactic(auto, unfolding(crate::specs::Pages::title))]
fn push_title(text: &mut String, edition: u64) -> Result<(), AllocError>
    ensures { OnOk result (string_bytes text.new ≡ string_bytes text.old ++ title edition) }
{
    write!(text, "<title>omaha: edition {edition}</title>\n")
}

#[tactic(auto, unfolding(crate::specs::Pages::document_head))]
fn push_document_head(text: &mut String, edition: u64) -> Result<(), AllocError>
    ensures { OnOk result (string_bytes text.new ≡ string_bytes text.old ++ document_head edition) }
{
    text.push_str(HEAD)?;
    push_title(text, edition)?;
    text.push_str(STYLE)
}

#[tactic(auto, unfolding(crate::specs::Pages::heading))]
fn push_heading(text: &mut String, edition: u64) -> Result<(), AllocError>
    ensures { OnOk result (string_bytes text.new ≡ string_bytes text.old ++ heading edition) }
{
    write!(text, "<header>\n<h1>Edition {edition}</h1>\n<p>omaha ")
}

#[tactic(auto, unfolding(crate::specs::Pages::header))]
fn push_header(text: &mut String, edition: u64, version: &str) -> Result<(), AllocError>
    ensures { OnOk result (string_bytes text.new ≡ string_bytes text.old ++ header edition version.now) }
{
    push_heading(text, edition)?;
    push_escaped(text, version)?;
    text.push_str("</p>\n</header>\n")
}

#[tactic(auto, unfolding(crate::specs::Pages::sections_of))]
fn push_sections(alloc: Global, text: &mut String, shown: &Shown<'_>) -> Result<(), AllocError>
    ensures { OnOk result (string_bytes text.new ≡ string_bytes text.old ++ sections_of shown.now) }
{
    push_reach(text, shown.counts.lost)?;
    push_apps(alloc, text, shown.apps, shown.sights)?;
    push_mirror_section(alloc, text, shown.mirrors, shown.granted)?;
    push_publishes(text, shown.publishes)?;
    push_calls(text, &shown.counts)
}

#[tactic(auto, unfolding(crate::specs::Pages::main_of))]
fn push_main(alloc: Global, text: &mut String, shown: &Shown<'_>) -> Result<(), AllocError>
    ensures { OnOk result (string_bytes text.new ≡ string_bytes text.old ++ main_of shown.now) }
{
    text.push_str("<main>\n")?;
    push_sections(alloc, text, shown)?;
    text.push_str(END)
}

// rule: Page of an edition
/// Writes the page: the edition, since when the history is unreachable if it is, the edition's apps with their cohorts and
/// releases and what is seen of these, the mirrors' budgets, the last publishes and the operator's calls.
///
/// It is HTML without a script, and fetches nothing. Each string is escaped but the images of the apps' sights, which are
/// markup. An app without a sight isn't there. Out of memory is the only error.
pub fn page_string(alloc: Global, shown: &Shown<'_>) -> Result<String, AllocError>
    ensures { IfOk result (λ text. string_bytes text ≡ page_string shown.now) }
{
    let mut text = String::new(alloc);
    push_document_head(&mut text, shown.edition)?;
    push_header(&mut text, shown.edition, shown.version)?;
    push_main(alloc, &mut text, shown)?;
    Ok(text)
}
