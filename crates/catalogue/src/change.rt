//! What an accepted edit does to the apps of a content.

ghost use Rattle.std.specs.Prelude.{◌≡◌, ◌&&◌, ◌++◌, ◌∷◌, [], List, ℕ, None, true, IfOk, OnOk, option_map, position};
ghost use Rattle.catalogue.specs.Changes.{in_cohort, in_release, new_app, new_cohort, new_diff, new_release, placed, placed_diff, with_cohort, with_diff, with_release, with_release_setting, with_setting};
ghost use Rattle.values.specs.Lists.{change};
ghost use Rattle.catalogue.specs.Lookups.{is_app, is_cohort, is_release};
ghost use Rattle.values.specs.Ordered.{ascend};
ghost use Rattle.catalogue.specs.Validity.{IsValid, is_diff_before, is_release_below};

use crate::content::{App, Cohort, Diff, Release};
use crate::edits::apps::AddApp;
use crate::edits::cohort_settings::CohortSetting;
use crate::edits::cohorts::AddCohort;
use crate::edits::diffs::AddDiff;
use crate::edits::release_settings::ReleaseSetting;
use crate::edits::releases::AddRelease;
use crate::form::hash_named;
use crate::lookup;
use crate::version::Version;
use std::alloc::{AllocError, Global};
use values::{Items, Shared, SharedItems, Text};

fn new_cohort(name: Text) -> Cohort
    ensures { result ≡ new_cohort name }
{
    Cohort {
        name,
        target: None,
        held: None,
        share: 1000,
        rollback: false,
        hintable: false,
    }
}

pub(crate) fn new_app(alloc: Global, edit: &AddApp) -> Result<App, AllocError>
    ensures { IfOk result (λ app. app ≡ new_app edit.now) }
{
    let mut cohorts = Items::empty(alloc);
    cohorts.push(new_cohort(edit.default.clone()?))?;
    let id = edit.app.clone()?;
    let releases = SharedItems::empty(alloc)?;
    let diffs = SharedItems::empty(alloc)?;
    Ok(App {
        id,
        cohorts,
        releases,
        diffs,
    })
}

pub(crate) fn new_release(edit: &AddRelease) -> Result<Release, AllocError>
    ensures { IfOk result (λ release. release ≡ new_release edit.now) }
{
    let spelled = edit.version.clone()?;
    let name = edit.name.clone()?;
    let hash = hash_named(edit.sha256.as_str());
    Ok(Release {
        version: Version::lenient(edit.version.as_str()),
        spelled,
        name,
        size: edit.size,
        hash,
        stone: false,
        withdrawn: false,
        audience: None,
        floor: Version::zero(),
    })
}

pub(crate) fn new_diff(edit: &AddDiff) -> Result<Diff, AllocError>
    ensures { IfOk result (λ diff. diff ≡ new_diff edit.now) }
{
    let name = edit.name.clone()?;
    let hash = hash_named(edit.sha256.as_str());
    Ok(Diff {
        from: Version::lenient(edit.from.as_str()),
        to: Version::lenient(edit.to.as_str()),
        name,
        size: edit.size,
        hash,
    })
}

pub(crate) fn added_cohort(edit: &AddCohort) -> Result<Cohort, AllocError>
    ensures { IfOk result (λ cohort. cohort ≡ new_cohort edit.now.cohort) }
{
    Ok(new_cohort(edit.cohort.clone()?))
}

fn place(releases: &mut SharedItems<Release>, release: Release) -> Result<(), AllocError>
    requires { ascend is_release_below releases.old ≡ true }
    ensures { OnOk result (releases.new ≡ placed release releases.old) }
{
    let index = lookup::place_of(releases.as_slice(), &release.version);
    releases.insert(index, release)
}

fn place_diff(diffs: &mut SharedItems<Shared<Diff>>, diff: Shared<Diff>) -> Result<(), AllocError>
    requires { ascend is_diff_before diffs.old ≡ true }
    ensures { OnOk result (diffs.new ≡ placed_diff diff diffs.old) }
{
    let pair = diff.get();
    let index = lookup::place_of_pair(diffs.as_slice(), &pair.from, &pair.to);
    diffs.insert(index, diff)
}

fn index_of_app(apps: &Items<App>, id: &Text) -> Option<usize>
    requires { IsValid apps.now }
    ensures { result ≡ position (is_app id.now) apps.now }
{
    lookup::index_of_app(apps.as_slice(), id.as_str())
}

fn index_of_cohort(cohorts: &Items<Cohort>, name: &Text) -> Option<usize>
    ensures { result ≡ position (is_cohort name.now) cohorts.now }
{
    lookup::index_of_cohort(cohorts.as_slice(), name.as_str())
}

pub(crate) fn place_in(apps: &mut Items<App>, id: &Text, release: Release) -> Result<(), AllocError>
    requires { IsValid apps.old }
    ensures { OnOk result (apps.new ≡ change (is_app id.now) (with_release release) apps.old) }
{
    if let Some(index) = index_of_app(apps, id) {
        let app = apps.item_mut(index);
        place(&mut app.releases, release)?;
    }
    Ok(())
}

pub(crate) fn place_diff_in(
    apps: &mut Items<App>,
    id: &Text,
    diff: Shared<Diff>,
) -> Result<(), AllocError>
    requires { IsValid apps.old }
    ensures { OnOk result (apps.new ≡ change (is_app id.now) (with_diff diff) apps.old) }
{
    if let Some(index) = index_of_app(apps, id) {
        let app = apps.item_mut(index);
        place_diff(&mut app.diffs, diff)?;
    }
    Ok(())
}

fn push_cohort(cohorts: &mut Items<Cohort>, cohort: Cohort) -> Result<(), AllocError>
    ensures { OnOk result (cohorts.new ≡ cohorts.old ++ cohort ∷ []) }
{
    cohorts.push(cohort)
}

pub(crate) fn add_cohort_to(
    apps: &mut Items<App>,
    id: &Text,
    cohort: Cohort,
) -> Result<(), AllocError>
    requires { IsValid apps.old }
    ensures { OnOk result (apps.new ≡ change (is_app id.now) (with_cohort cohort) apps.old) }
{
    if let Some(index) = index_of_app(apps, id) {
        let app = apps.item_mut(index);
        push_cohort(&mut app.cohorts, cohort)?;
    }
    Ok(())
}

fn index_of_release(releases: &SharedItems<Release>, version: &Version) -> Option<usize>
    requires { ascend is_release_below releases.now ≡ true }
    ensures { result ≡ position (is_release version.now) releases.now }
{
    lookup::index_of_release(releases.as_slice(), version)
}

fn clone_release(release: &Release) -> Result<Release, AllocError>
    ensures { IfOk result (λ copy. copy ≡ release.now) }
{
    release.clone()
}

fn set_in_releases(
    releases: &mut SharedItems<Release>,
    version: &Version,
    setting: ReleaseSetting,
) -> Result<(), AllocError>
    requires { ascend is_release_below releases.old ≡ true }
    ensures { OnOk result (releases.new
        ≡ change (is_release version.now) (with_release_setting setting) releases.old) }
{
    if let Some(index) = index_of_release(releases, version) {
        let mut release = clone_release(&releases.as_slice()[index])?;
        setting.set(&mut release);
        releases.replace(index, release)?;
    }
    Ok(())
}

pub(crate) fn set_release_in_apps(
    apps: &mut Items<App>,
    id: &Text,
    version: &Version,
    setting: ReleaseSetting,
) -> Result<(), AllocError>
    requires { IsValid apps.old }
    ensures { OnOk result (apps.new
        ≡ change (is_app id.now) (in_release version.now (with_release_setting setting)) apps.old) }
{
    if let Some(index) = index_of_app(apps, id) {
        let app = apps.item_mut(index);
        set_in_releases(&mut app.releases, version, setting)?;
    }
    Ok(())
}

fn set_in_cohorts(cohorts: &mut Items<Cohort>, name: &Text, setting: CohortSetting)
    ensures { cohorts.new ≡ change (is_cohort name.now) (with_setting setting) cohorts.old }
{
    if let Some(index) = index_of_cohort(cohorts, name) {
        let cohort = cohorts.item_mut(index);
        setting.set(cohort);
    }
}

pub(crate) fn set_cohort_in_apps(
    apps: &mut Items<App>,
    id: &Text,
    cohort: &Text,
    setting: CohortSetting,
)
    requires { IsValid apps.old }
    ensures { apps.new ≡ change (is_app id.now) (in_cohort cohort.now (with_setting setting)) apps.old }
{
    if let Some(index) = index_of_app(apps, id) {
        let app = apps.item_mut(index);
        set_in_cohorts(&mut app.cohorts, cohort, setting);
    }
}
