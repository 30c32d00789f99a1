//! The apps of a catalogue.

ghost use Rattle.std.specs.Prelude.{◌≡◌, map, IfOk};
ghost use Rattle.std.specs.List.{AllByRecursion};
ghost use Rattle.catalogue.specs.Contents.{default_name};
ghost use Rattle.catalogue.specs.Validity.{IsValidApp};
ghost use Rattle.toml.specs.View.{table_view};
ghost use Rattle.profile_toml.specs.WrittenFields.{app_table};

use crate::writing::cohort::write_cohorts;
use crate::writing::release::{write_diffs, write_releases};
use crate::writing::table::TableWriter;
use catalogue::{App, Cohort};
use std::alloc::{AllocError, Global};
use toml::Table;

fn default_name(cohorts: &[Cohort]) -> &str
    ensures { result.now ≡ default_name cohorts.now }
{
    match cohorts.first() {
        Some(default) => default.name.as_str(),
        None => "",
    }
}

// rule: Written app
fn write_app(alloc: Global, app: &App) -> Result<Table, AllocError>
    requires { IsValidApp app.now }
    ensures { IfOk result (λ table. table_view table ≡ app_table app.now) }
{
    let releases = app.releases.as_slice();
    let cohorts = app.cohorts.as_slice();
    let mut table = TableWriter::new(alloc);
    table.string("id", app.id.as_str())?;
    table.string("default", default_name(cohorts))?;
    table.tables("cohort", write_cohorts(alloc, releases, cohorts)?)?;
    table.tables("release", write_releases(alloc, releases)?)?;
    table.tables("diff", write_diffs(alloc, releases, app.diffs.as_slice())?)?;
    Ok(table.into_table())
}

/// Makes the tables of the apps, in the order of their addition.
pub(crate) fn write_apps(alloc: Global, apps: &[App]) -> Result<Vec<Table>, AllocError>
    requires { AllByRecursion IsValidApp apps.now }
    ensures { IfOk result (λ tables. map table_view tables.items
        ≡ map app_table apps.now) }
{
    let mut tables = Vec::new(alloc);
    for app in apps {
        tables.push(write_app(alloc, app)?)?;
    }
    Ok(tables)
}
