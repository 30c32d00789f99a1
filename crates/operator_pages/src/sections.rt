//! The sections of the page.

ghost use Rattle.std.specs.Prelude.{◌≡◌, ◌++◌, OnOk, string_bytes};
ghost use Rattle.operator_pages.specs.Sections.{app_heading, app_section, app_sections, app_tables, call_row, call_rows, calls_section, cohort_table, lost_note, mirror_section, other_rows, published_rows, reach_note, release_summary, release_table, seen_releases};

use crate::counts::{Counts, Outcome, count_of, word_of};
use crate::headings::{CALLS, COHORTS, LOST, LOST_END, MIRRORS, NO_RELEASES, RELEASES, TABLE_END};
use crate::html::{push_name_cell, push_number_cell};
use crate::sights::{AppSight, push_sight};
use crate::spending::{Place, push_mirrors};
use crate::tables::{push_cohorts, push_releases};
use catalogue::{App, Cohort, Mirror, Release};
use reviews::push_escaped;
use std::alloc::{AllocError, Global};
use std::fmt::Write;

#[tactic(auto, unfolding(crate::specs::Sections::lost_note))]
fn push_lost(text: &mut String, since: u64) -> Result<(), AllocError>
    ensures { OnOk result (string_bytes text.new ≡ string_bytes text.old ++ lost_note since) }
{
    text.push_str(LOST)?;
    write!(text, "{since}")?;
    text.push_str(LOST_END)
}

/// Adds a section that says since when the history is unreachable, if it is.
pub(crate) fn push_reach(text: &mut String, lost: Option<u64>) -> Result<(), AllocError>
    ensures { OnOk result (string_bytes text.new ≡ string_bytes text.old ++ reach_note lost) }
{
    match lost {
        None => Ok(()),
        Some(since) => push_lost(text, since),
    }
}

/// Adds the section of the mirrors.
#[tactic(auto, unfolding(crate::specs::Sections::mirror_section))]
pub(crate) fn push_mirror_section(
    alloc: Global,
    text: &mut String,
    mirrors: &[Mirror],
    granted: &[u64],
) -> Result<(), AllocError>
    ensures { OnOk result (string_bytes text.new ≡ string_bytes text.old ++ mirror_section mirrors.now granted.now) }
{
    text.push_str(MIRRORS)?;
    push_mirrors(alloc, text, Place::Row, mirrors, granted)?;
    text.push_str(TABLE_END)?;
    text.push_str("</section>\n")
}

#[tactic(auto, unfolding(crate::specs::Sections::cohort_table))]
fn push_cohort_table(alloc: Global, text: &mut String, cohorts: &[Cohort]) -> Result<(), AllocError>
    ensures { OnOk result (string_bytes text.new ≡ string_bytes text.old ++ cohort_table cohorts.now) }
{
    text.push_str(COHORTS)?;
    push_cohorts(alloc, text, cohorts)?;
    text.push_str(TABLE_END)
}

#[tactic(auto, unfolding(crate::specs::Sections::release_summary))]
fn push_release_summary(text: &mut String, count: usize) -> Result<(), AllocError>
    ensures { OnOk result (string_bytes text.new ≡ string_bytes text.old ++ release_summary count) }
{
    write!(
        text,
        "<details open>\n<summary>Releases: {count}</summary>\n"
    )
}

#[tactic(auto, unfolding(crate::specs::Sections::release_table))]
fn push_release_table(text: &mut String, releases: &[Release]) -> Result<(), AllocError>
    ensures { OnOk result (string_bytes text.new ≡ string_bytes text.old ++ release_table releases.now) }
{
    push_release_summary(text, releases.len())?;
    text.push_str(RELEASES)?;
    push_releases(text, releases)?;
    text.push_str(TABLE_END)?;
    text.push_str("</details>\n")
}

// Adds what is seen of the releases of an app, and these; or that there are none.
#[tactic(auto, unfolding(crate::specs::Sections::seen_releases))]
fn push_seen(text: &mut String, sight: &AppSight, releases: &[Release]) -> Result<(), AllocError>
    ensures { OnOk result (string_bytes text.new ≡ string_bytes text.old ++ seen_releases sight.now releases.now) }
{
    if releases.len() == 0 {
        return text.push_str(NO_RELEASES);
    }
    push_sight(text, sight)?;
    push_release_table(text, releases)
}

#[tactic(auto, unfolding(crate::specs::Sections::app_heading))]
fn push_app_heading(text: &mut String, id: &str) -> Result<(), AllocError>
    ensures { OnOk result (string_bytes text.new ≡ string_bytes text.old ++ app_heading id.now) }
{
    text.push_str("<section>\n<h2>")?;
    push_escaped(text, id)?;
    text.push_str("</h2>\n")
}

#[tactic(auto, unfolding(crate::specs::Sections::app_tables))]
fn push_app_tables(
    alloc: Global,
    text: &mut String,
    app: &App,
    sight: &AppSight,
) -> Result<(), AllocError>
    ensures { OnOk result (string_bytes text.new ≡ string_bytes text.old ++ app_tables app.now sight.now) }
{
    push_cohort_table(alloc, text, app.cohorts.as_slice())?;
    push_seen(text, sight, app.releases.as_slice())
}

// rule: Section of an app
#[tactic(auto, unfolding(crate::specs::Sections::app_section))]
fn push_app(alloc: Global, text: &mut String, app: &App, sight: &AppSight) -> Result<(), AllocError>
    ensures { OnOk result (string_bytes text.new ≡ string_bytes text.old ++ app_section (app.now, sight.now)) }
{
    push_app_heading(text, app.id.as_str())?;
    push_app_tables(alloc, text, app, sight)?;
    text.push_str("</section>\n")
}

/// Adds the sections of the apps, each with what is seen of its releases.
pub(crate) fn push_apps(
    alloc: Global,
    text: &mut String,
    apps: &[App],
    sights: &[AppSight],
) -> Result<(), AllocError>
    ensures { OnOk result (string_bytes text.new ≡ string_bytes text.old ++ app_sections apps.now sights.now) }
{
    for index in 0..apps.len().min(sights.len()) {
        push_app(alloc, text, &apps[index], &sights[index])?;
    }
    Ok(())
}

#[tactic(auto, unfolding(crate::specs::Sections::call_row))]
fn push_call(text: &mut String, counts: &Counts, outcome: Outcome) -> Result<(), AllocError>
    ensures { OnOk result (string_bytes text.new ≡ string_bytes text.old ++ call_row counts.now outcome) }
{
    text.push_str("<tr>")?;
    push_name_cell(text, word_of(outcome))?;
    push_number_cell(text, count_of(counts, outcome))?;
    text.push_str("</tr>\n")
}

#[tactic(auto, unfolding(crate::specs::Sections::published_rows))]
fn push_published_rows(text: &mut String, counts: &Counts) -> Result<(), AllocError>
    ensures { OnOk result (string_bytes text.new ≡ string_bytes text.old ++ published_rows counts.now) }
{
    push_call(text, counts, Outcome::Published)?;
    push_call(text, counts, Outcome::Followed)
}

#[tactic(auto, unfolding(crate::specs::Sections::other_rows))]
fn push_other_rows(text: &mut String, counts: &Counts) -> Result<(), AllocError>
    ensures { OnOk result (string_bytes text.new ≡ string_bytes text.old ++ other_rows counts.now) }
{
    push_call(text, counts, Outcome::Stale)?;
    push_call(text, counts, Outcome::Rejected)?;
    push_call(text, counts, Outcome::Malformed)?;
    push_call(text, counts, Outcome::Unreachable)?;
    push_call(text, counts, Outcome::Failed)?;
    push_call(text, counts, Outcome::Raised)
}

#[tactic(auto, unfolding(crate::specs::Sections::call_rows))]
fn push_call_rows(text: &mut String, counts: &Counts) -> Result<(), AllocError>
    ensures { OnOk result (string_bytes text.new ≡ string_bytes text.old ++ call_rows counts.now) }
{
    push_published_rows(text, counts)?;
    push_other_rows(text, counts)
}

/// Adds the section of the operator's calls.
#[tactic(auto, unfolding(crate::specs::Sections::calls_section))]
pub(crate) fn push_calls(text: &mut String, counts: &Counts) -> Result<(), AllocError>
    ensures { OnOk result (string_bytes text.new ≡ string_bytes text.old ++ calls_section counts.now) }
{
    text.push_str(CALLS)?;
    push_call_rows(text, counts)?;
    text.push_str(TABLE_END)?;
    text.push_str("</section>\n")
}
