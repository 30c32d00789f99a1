//! An app of a profile: what its table says, and its edits.

ghost use Rattle.std.specs.Prelude.{◌≡◌, ◌++◌, IfOk, OnOk};
ghost use Rattle.std.specs.List.{flat_map};
ghost use Rattle.values.specs.Reading.{Reads};
ghost use Rattle.profile_toml.specs.Readers.{placed};
ghost use Rattle.profile_toml.specs.Apps.{added_edits, app_edits, app_of, edits_of};
ghost use Rattle.profile_toml.specs.Cohorts.{cohort_edits, setting_edits};
ghost use Rattle.profile_toml.specs.Diffs.{diff_edits};
ghost use Rattle.profile_toml.specs.Releases.{release_edits};

use crate::cohort::{CohortEntry, push_cohort, push_settings, read_cohorts};
use crate::diff::{DiffEntry, DiffTable, push_diff};
use crate::document::Schema;
use crate::release::{ReleaseEntry, ReleaseTable, push_release};
use crate::tables::{BadEntry, TableKind, TableReader};
use catalogue::{AddApp, Edit};
use std::alloc::{AllocError, Global};
use values::{Items, ReadError, Text};

/// A table `app`.
pub(crate) struct AppEntry {
    /// The key `id`.
    pub id: Text,
    /// The key `default`, the name of the default cohort.
    pub default: Text,
    /// The tables `cohort`, each name once.
    pub cohorts: Items<CohortEntry>,
    /// The tables `release`.
    pub releases: Items<ReleaseEntry>,
    /// The tables `diff`.
    pub diffs: Items<DiffEntry>,
}

// Written out, so that no caller proves again how each part is dropped.
impl Drop for AppEntry {
    fn drop(self) {
        let AppEntry {
            id: _,
            default: _,
            cohorts: _,
            releases: _,
            diffs: _,
        } = self;
    }
}

impl AppEntry {
    fn into_parts(
        self,
    ) -> (
        Text,
        Items<CohortEntry>,
        Items<ReleaseEntry>,
        Items<DiffEntry>,
    )
        ensures id { result.0 ≡ self.id }
        ensures cohorts { result.1 ≡ self.cohorts }
        ensures releases { result.2 ≡ self.releases }
        ensures diffs { result.3 ≡ self.diffs }
    {
        let AppEntry {
            id,
            default: _,
            cohorts,
            releases,
            diffs,
        } = self;
        (id, cohorts, releases, diffs)
    }
}

// rule: App of a profile
#[tactic(auto, unfolding(crate::specs::Apps::app_of))]
fn read_app(schema: Schema, table: &TableReader<'_>) -> Result<AppEntry, ReadError<BadEntry>>
    ensures { Reads (λ app. app) result (app_of schema (placed table.now)) }
{
    table.check_keys(&["id", "default", "cohort", "release", "diff"])?;
    let id = table.string("id")?;
    let default = table.string("default")?;
    let cohorts = table.optional_list("cohort")?;
    let releases = table.optional_list("release")?;
    let diffs = table.optional_list("diff")?;
    Ok(AppEntry {
        id,
        default,
        cohorts: read_cohorts(table.alloc(), &cohorts)?,
        releases: releases.read(&ReleaseTable { schema })?,
        diffs: diffs.read(&DiffTable)?,
    })
}

/// The tables `app` of a profile of a schema.
#[derive(Clone, Copy)]
pub(crate) struct AppTable {
    pub schema: Schema,
}

impl TableKind for AppTable {
    ghost use Rattle.profile_toml.specs.Apps.{app_of};

    type Record = AppEntry;

    ghost reads = { λ kind. app_of kind.schema };

    fn read(&self, table: &TableReader<'_>) -> Result<AppEntry, ReadError<BadEntry>> {
        read_app(self.schema, table)
    }
}

fn push_cohorts(
    app: &Text,
    default: &Text,
    cohorts: &[CohortEntry],
    edits: &mut Items<Edit>,
) -> Result<(), AllocError>
    ensures { OnOk result
        (edits.new ≡ edits.old ++ flat_map (cohort_edits app.now default.now) cohorts.now) }
{
    for cohort in cohorts {
        push_cohort(app, default, cohort, edits)?;
    }
    Ok(())
}

fn push_releases(
    app: &Text,
    releases: Items<ReleaseEntry>,
    edits: &mut Items<Edit>,
) -> Result<(), AllocError>
    ensures { OnOk result
        (edits.new ≡ edits.old ++ flat_map (release_edits app.now) releases) }
{
    for release in releases.into_vec() {
        push_release(app, release, edits)?;
    }
    Ok(())
}

fn push_diffs(
    app: &Text,
    diffs: Items<DiffEntry>,
    edits: &mut Items<Edit>,
) -> Result<(), AllocError>
    ensures { OnOk result (edits.new ≡ edits.old ++ flat_map (diff_edits app.now) diffs) }
{
    for diff in diffs.into_vec() {
        push_diff(app, diff, edits)?;
    }
    Ok(())
}

fn push_all_settings(
    app: &Text,
    cohorts: &[CohortEntry],
    edits: &mut Items<Edit>,
) -> Result<(), AllocError>
    ensures { OnOk result
        (edits.new ≡ edits.old ++ flat_map (setting_edits app.now) cohorts.now) }
{
    for cohort in cohorts {
        push_settings(app, cohort, edits)?;
    }
    Ok(())
}

// Pushes the edits that add an app and its cohorts.
fn push_added(app: &AppEntry, edits: &mut Items<Edit>) -> Result<(), AllocError>
    ensures { OnOk result (edits.new ≡ edits.old ++ added_edits app.now) }
{
    let edit = AddApp {
        app: app.id.clone()?,
        default: app.default.clone()?,
    };
    edits.push(Edit::AddApp(edit))?;
    push_cohorts(&app.id, &app.default, app.cohorts.as_slice(), edits)
}

fn push_app(app: AppEntry, edits: &mut Items<Edit>) -> Result<(), AllocError>
    ensures { OnOk result (edits.new ≡ edits.old ++ app_edits app) }
{
    push_added(&app, edits)?;
    let (id, cohorts, releases, diffs) = app.into_parts();
    push_releases(&id, releases, edits)?;
    push_diffs(&id, diffs, edits)?;
    push_all_settings(&id, cohorts.as_slice(), edits)
}

// rule: Edits of a profile
/// Makes the edits of a profile's apps.
pub(crate) fn edits_of(alloc: Global, apps: Items<AppEntry>) -> Result<Items<Edit>, AllocError>
    ensures { IfOk result (λ edits. edits ≡ edits_of apps) }
{
    let mut edits = Items::empty(alloc);
    for app in apps.into_vec() {
        push_app(app, &mut edits)?;
    }
    Ok(edits)
}
