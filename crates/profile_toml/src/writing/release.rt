//! The releases and the differentials of an app.

ghost use Rattle.std.specs.Prelude.{◌≡◌, ◌<◌, ◌^◌, true, codes, map, option_map, IfOk, OnOk};
ghost use Rattle.std.specs.List.{AllByRecursion};
ghost use Rattle.catalogue.specs.Contents.{spelling_of};
ghost use Rattle.catalogue.specs.Validity.{is_release_below};
ghost use Rattle.toml.specs.View.{table_view};
ghost use Rattle.values.specs.Ordered.{ascend};
ghost use Rattle.profile_toml.specs.WrittenFields.{diff_table, floor_given, release_table};
ghost use Rattle.profile_toml.specs.WrittenTables.{optional_string, with_key};
ghost use Rattle.profile_toml.specs.Writers.{filled};

use crate::writing::table::TableWriter;
use catalogue::{Diff, Release, Version, lookup};
use std::alloc::{AllocError, Global};
use toml::Table;
use values::Shared;

/// Returns the string that a version's release was added with.
pub(crate) fn spelling<'r>(releases: &'r [Release], version: &Version) -> &'r str
    requires { ascend is_release_below releases.now ≡ true }
    ensures { result.now ≡ spelling_of releases.now version.now }
{
    match lookup::index_of_release(releases, version) {
        Some(index) => releases[index].spelled.as_str(),
        None => "",
    }
}

fn write_floor(alloc: Global, table: &mut TableWriter, floor: &Version) -> Result<(), AllocError>
    ensures { OnOk result
        (filled table.new
        ≡ with_key (codes "floor") (optional_string (floor_given floor.now)) (filled table.old)) }
{
    if floor.is_equal(&Version::zero()) {
        return Ok(());
    }
    let printed = format!(in alloc; "{floor}")?;
    table.string("floor", printed.as_str())
}

// rule: Written release
fn write_release(alloc: Global, release: &Release) -> Result<Table, AllocError>
    requires { release.now.size < 2 ^ 63 }
    ensures { IfOk result (λ table. table_view table ≡ release_table release.now) }
{
    let digits = hex::encode(alloc, release.hash)?;
    let mut table = TableWriter::new(alloc);
    table.string("version", release.spelled.as_str())?;
    table.string("name", release.name.as_str())?;
    table.natural("size", release.size)?;
    table.string("sha256", digits.as_str())?;
    table.flag("stone", release.stone)?;
    table.flag("withdrawn", release.withdrawn)?;
    table.optional_strings("audience", &release.audience)?;
    write_floor(alloc, &mut table, &release.floor)?;
    Ok(table.into_table())
}

/// Makes the tables of an app's releases.
pub(crate) fn write_releases(alloc: Global, releases: &[Release]) -> Result<Vec<Table>, AllocError>
    requires { AllByRecursion (λ release. release.size < 2 ^ 63) releases.now }
    ensures { IfOk result (λ tables. map table_view tables.items
        ≡ map release_table releases.now) }
{
    let mut tables = Vec::new(alloc);
    for release in releases {
        tables.push(write_release(alloc, release)?)?;
    }
    Ok(tables)
}

// rule: Written differential
fn write_diff(alloc: Global, releases: &[Release], diff: &Diff) -> Result<Table, AllocError>
    requires ascend { ascend is_release_below releases.now ≡ true }
    requires sized { diff.now.size < 2 ^ 63 }
    ensures { IfOk result (λ table. table_view table ≡ diff_table releases.now diff.now) }
{
    let digits = hex::encode(alloc, diff.hash)?;
    let mut table = TableWriter::new(alloc);
    table.string("from", spelling(releases, &diff.from))?;
    table.string("to", spelling(releases, &diff.to))?;
    table.string("name", diff.name.as_str())?;
    table.natural("size", diff.size)?;
    table.string("sha256", digits.as_str())?;
    Ok(table.into_table())
}

/// Makes the tables of an app's differentials.
pub(crate) fn write_diffs(
    alloc: Global,
    releases: &[Release],
    diffs: &[Shared<Diff>],
) -> Result<Vec<Table>, AllocError>
    requires ascend { ascend is_release_below releases.now ≡ true }
    requires sized { AllByRecursion (λ diff. diff.size < 2 ^ 63) diffs.now }
    ensures { IfOk result (λ tables. map table_view tables.items
        ≡ map (diff_table releases.now) diffs.now) }
{
    let mut tables = Vec::new(alloc);
    for diff in diffs {
        tables.push(write_diff(alloc, releases, diff.get())?)?;
    }
    Ok(tables)
}
