//! The cohorts of an app.

ghost use Rattle.std.specs.Prelude.{◌≡◌, ◌<◌, ◌^◌, true, codes, map, option_map, IfOk, OnOk};
ghost use Rattle.std.specs.List.{AllByRecursion};
ghost use Rattle.catalogue.specs.Contents.{spelling_of};
ghost use Rattle.catalogue.specs.Validity.{is_release_below};
ghost use Rattle.toml.specs.View.{table_view};
ghost use Rattle.values.specs.Ordered.{ascend};
ghost use Rattle.profile_toml.specs.WrittenFields.{cohort_table, share_given};
ghost use Rattle.profile_toml.specs.WrittenTables.{optional_natural, with_key};
ghost use Rattle.profile_toml.specs.Writers.{filled};

use crate::writing::release::spelling;
use crate::writing::table::TableWriter;
use catalogue::{Cohort, Release, Version};
use std::alloc::{AllocError, Global};
use toml::Table;

const ALL_CLIENTS: u64 = 1000;

fn optional_spelling<'r>(releases: &'r [Release], version: &Option<Version>) -> Option<&'r str>
    requires { ascend is_release_below releases.now ≡ true }
    ensures { option_map (λ text. text.now) result ≡ option_map (spelling_of releases.now) version.now }
{
    match version {
        Some(version) => Some(spelling(releases, version)),
        None => None,
    }
}

fn write_share(table: &mut TableWriter, share: u64) -> Result<(), AllocError>
    requires { share < 2 ^ 63 }
    ensures { OnOk result
        (filled table.new
        ≡ with_key (codes "share") (optional_natural (share_given share)) (filled table.old)) }
{
    if share == ALL_CLIENTS {
        return Ok(());
    }
    table.natural("share", share)
}

// rule: Written cohort
fn write_cohort(alloc: Global, releases: &[Release], cohort: &Cohort) -> Result<Table, AllocError>
    requires ascend { ascend is_release_below releases.now ≡ true }
    requires shared { cohort.now.share < 2 ^ 63 }
    ensures { IfOk result (λ table. table_view table
        ≡ cohort_table releases.now cohort.now) }
{
    let mut table = TableWriter::new(alloc);
    table.string("name", cohort.name.as_str())?;
    table.optional_string("target", optional_spelling(releases, &cohort.target))?;
    table.optional_string("held", optional_spelling(releases, &cohort.held))?;
    write_share(&mut table, cohort.share)?;
    table.flag("rollback", cohort.rollback)?;
    table.flag("open", cohort.hintable)?;
    Ok(table.into_table())
}

/// Makes the tables of an app's cohorts, the default one first.
pub(crate) fn write_cohorts(
    alloc: Global,
    releases: &[Release],
    cohorts: &[Cohort],
) -> Result<Vec<Table>, AllocError>
    requires ascend { ascend is_release_below releases.now ≡ true }
    requires shared { AllByRecursion (λ cohort. cohort.share < 2 ^ 63) cohorts.now }
    ensures { IfOk result (λ tables. map table_view tables.items
        ≡ map (cohort_table releases.now) cohorts.now) }
{
    let mut tables = Vec::new(alloc);
    for cohort in cohorts {
        tables.push(write_cohort(alloc, releases, cohort)?)?;
    }
    Ok(tables)
}
