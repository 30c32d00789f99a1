//! The tables of cohorts and releases.

ghost use Rattle.std.specs.Prelude.{◌≡◌, ◌++◌, OnOk, string_bytes};
ghost use Rattle.operator_pages.specs.Tables.{audience_tags, cohort_row, cohort_rows, cohort_tags, marks, name_tag, name_tags, release_row, release_rows, release_tags, rights, target_cells};

use crate::headings::ROW_END;
use crate::html::{
    Tag, push_cell, push_name_cell, push_named_tag, push_number_cell, push_share_cell, push_tag_if,
    version_or,
};
use catalogue::{Cohort, Release};
use std::alloc::{AllocError, Global};
use values::{Items, Text};

#[tactic(auto, unfolding(crate::specs::Tables::rights))]
fn push_rights(text: &mut String, cohort: &Cohort) -> Result<(), AllocError>
    ensures { OnOk result (string_bytes text.new ≡ string_bytes text.old ++ rights cohort.now) }
{
    push_tag_if(text, cohort.hintable, Tag::Open)?;
    push_tag_if(text, cohort.rollback, Tag::Rollback)
}

#[tactic(auto, unfolding(crate::specs::Tables::cohort_tags))]
fn push_cohort_tags(text: &mut String, cohort: &Cohort) -> Result<(), AllocError>
    ensures { OnOk result (string_bytes text.new ≡ string_bytes text.old ++ cohort_tags cohort.now) }
{
    text.push_str("<td>")?;
    push_rights(text, cohort)?;
    text.push_str(ROW_END)
}

// Adds what a cohort's clients are meant to have, and which part of them.
#[tactic(auto, unfolding(crate::specs::Tables::target_cells))]
fn push_targets(alloc: Global, text: &mut String, cohort: &Cohort) -> Result<(), AllocError>
    ensures { OnOk result (string_bytes text.new ≡ string_bytes text.old ++ target_cells cohort.now) }
{
    let target = version_or(alloc, &cohort.target)?;
    push_cell(text, target.as_str())?;
    push_share_cell(text, cohort.share)?;
    let held = version_or(alloc, &cohort.held)?;
    push_cell(text, held.as_str())
}

// rule: Row of a cohort
#[tactic(auto, unfolding(crate::specs::Tables::cohort_row))]
fn push_cohort(alloc: Global, text: &mut String, cohort: &Cohort) -> Result<(), AllocError>
    ensures { OnOk result (string_bytes text.new ≡ string_bytes text.old ++ cohort_row cohort.now) }
{
    text.push_str("<tr>")?;
    push_name_cell(text, cohort.name.as_str())?;
    push_targets(alloc, text, cohort)?;
    push_cohort_tags(text, cohort)
}

/// Adds the rows of cohorts.
pub(crate) fn push_cohorts(
    alloc: Global,
    text: &mut String,
    cohorts: &[Cohort],
) -> Result<(), AllocError>
    ensures { OnOk result (string_bytes text.new ≡ string_bytes text.old ++ cohort_rows cohorts.now) }
{
    for cohort in cohorts {
        push_cohort(alloc, text, cohort)?;
    }
    Ok(())
}

#[tactic(auto, unfolding(crate::specs::Tables::name_tag))]
fn push_name(text: &mut String, name: &Text) -> Result<(), AllocError>
    ensures { OnOk result (string_bytes text.new ≡ string_bytes text.old ++ name_tag name.now) }
{
    push_named_tag(text, "for ", name.as_str())
}

fn push_names(text: &mut String, names: &[Text]) -> Result<(), AllocError>
    ensures { OnOk result (string_bytes text.new ≡ string_bytes text.old ++ name_tags names.now) }
{
    for name in names {
        push_name(text, name)?;
    }
    Ok(())
}

// Adds a tag for each cohort that a release is open to, if it isn't open to all.
fn push_audience(text: &mut String, audience: &Option<Items<Text>>) -> Result<(), AllocError>
    ensures { OnOk result (string_bytes text.new ≡ string_bytes text.old ++ audience_tags audience.now) }
{
    match audience {
        Some(names) => push_names(text, names.as_slice()),
        None => Ok(()),
    }
}

#[tactic(auto, unfolding(crate::specs::Tables::marks))]
fn push_marks(text: &mut String, release: &Release) -> Result<(), AllocError>
    ensures { OnOk result (string_bytes text.new ≡ string_bytes text.old ++ marks release.now) }
{
    push_tag_if(text, release.withdrawn, Tag::Withdrawn)?;
    push_tag_if(text, release.stone, Tag::Stone)?;
    push_audience(text, &release.audience)
}

#[tactic(auto, unfolding(crate::specs::Tables::release_tags))]
fn push_release_tags(text: &mut String, release: &Release) -> Result<(), AllocError>
    ensures { OnOk result (string_bytes text.new ≡ string_bytes text.old ++ release_tags release.now) }
{
    text.push_str("<td>")?;
    push_marks(text, release)?;
    text.push_str(ROW_END)
}

// rule: Row of a release
#[tactic(auto, unfolding(crate::specs::Tables::release_row))]
fn push_release(text: &mut String, release: &Release) -> Result<(), AllocError>
    ensures { OnOk result (string_bytes text.new ≡ string_bytes text.old ++ release_row release.now) }
{
    text.push_str("<tr>")?;
    push_name_cell(text, release.spelled.as_str())?;
    push_cell(text, release.name.as_str())?;
    push_number_cell(text, release.size)?;
    push_release_tags(text, release)
}

/// Adds the rows of releases.
pub(crate) fn push_releases(text: &mut String, releases: &[Release]) -> Result<(), AllocError>
    ensures { OnOk result (string_bytes text.new ≡ string_bytes text.old ++ release_rows releases.now) }
{
    for release in releases {
        push_release(text, release)?;
    }
    Ok(())
}
