//! Items of a content by their names.

ghost use Rattle.std.specs.Prelude.{◌≡◌, ◌≤◌, true, length, position};
ghost use Rattle.std.specs.Option.{option_copied};
ghost use Rattle.std.specs.List.{list_any};
ghost use Rattle.catalogue.specs.Lookups.{app_of, has_cohort, has_diff, has_hash, has_release, is_app, is_cohort, is_diff, is_pair_below, is_release, pair_of, place_of, place_of_pair};
ghost use Rattle.values.specs.Ordered.{ascend};
ghost use Rattle.catalogue.specs.Validity.{IsValid, is_diff_before, is_release_below};

use crate::content::{App, Cohort, Diff, Release};
use crate::form::is_same_id;
use crate::version::Version;
use values::{Items, Shared};

/// The index of the app of an identifier, sought from the last app on.
pub fn index_of_app(apps: &[App], id: &str) -> Option<usize>
    requires { IsValid apps.now }
    ensures { result ≡ position (is_app id.now) apps.now }
{
    apps.iter().rposition(|app| is_same_id(id, app.id.as_str()))
}

/// The app of an identifier, sought from the last app on.
pub fn find_app<'a>(apps: &'a [App], id: &str) -> Option<&'a App>
    requires { IsValid apps.now }
    ensures { option_copied result ≡ app_of apps.now id.now }
{
    let index = index_of_app(apps, id)?;
    Some(&apps[index])
}

/// The place of a version among releases by ascending version, found by halves.
pub fn place_of(releases: &[Release], version: &Version) -> usize
    requires { ascend is_release_below releases.now ≡ true }
    ensures value { result ≡ place_of version.now releases.now }
    ensures bound { result ≤ length releases.now }
{
    crate::version_laws::order();
    releases.partition_point(|release| release.version.is_below(version))
}

/// Whether there is a release of a version among releases by ascending version.
pub fn has_release(releases: &[Release], version: &Version) -> bool
    requires { ascend is_release_below releases.now ≡ true }
    ensures { result ≡ has_release releases.now version.now }
{
    crate::version_laws::order();
    match releases.get(place_of(releases, version)) {
        Some(release) => version.is_equal(&release.version),
        None => false,
    }
}

/// The index of the release of a version among releases by ascending version.
pub fn index_of_release(releases: &[Release], version: &Version) -> Option<usize>
    requires { ascend is_release_below releases.now ≡ true }
    ensures { result ≡ position (is_release version.now) releases.now }
{
    crate::version_laws::order();
    if has_release(releases, version) {
        Some(place_of(releases, version))
    } else {
        None
    }
}

fn is_diff_below(diff: &Diff, from: &Version, to: &Version) -> bool
    ensures { result ≡ is_pair_below (pair_of diff.now) (from.now, to.now) }
{
    diff.from.is_below(from) || (diff.from.is_equal(from) && diff.to.is_below(to))
}

fn is_diff(diff: &Diff, from: &Version, to: &Version) -> bool
    ensures { result ≡ is_diff (from.now, to.now) diff.now }
{
    from.is_equal(&diff.from) && to.is_equal(&diff.to)
}

/// The place of a pair among differentials by ascending pair, found by halves.
pub fn place_of_pair(diffs: &[Shared<Diff>], from: &Version, to: &Version) -> usize
    requires { ascend is_diff_before diffs.now ≡ true }
    ensures value { result ≡ place_of_pair (from.now, to.now) diffs.now }
    ensures bound { result ≤ length diffs.now }
{
    crate::version_laws::order();
    diffs.partition_point(|diff| is_diff_below(diff.get(), from, to))
}

/// Whether there is a differential of a pair among differentials by ascending pair.
pub fn has_diff(diffs: &[Shared<Diff>], from: &Version, to: &Version) -> bool
    requires { ascend is_diff_before diffs.now ≡ true }
    ensures { result ≡ has_diff diffs.now (from.now, to.now) }
{
    crate::version_laws::order();
    match diffs.get(place_of_pair(diffs, from, to)) {
        Some(diff) => is_diff(diff.get(), from, to),
        None => false,
    }
}

/// The index of the differential of a pair among differentials by ascending pair.
pub fn index_of_diff(diffs: &[Shared<Diff>], from: &Version, to: &Version) -> Option<usize>
    requires { ascend is_diff_before diffs.now ≡ true }
    ensures { result ≡ position (is_diff (from.now, to.now)) diffs.now }
{
    crate::version_laws::order();
    if has_diff(diffs, from, to) {
        Some(place_of_pair(diffs, from, to))
    } else {
        None
    }
}

/// The index of the release of a hash.
pub fn index_of_hash(releases: &[Release], hash: &[u8; 32]) -> Option<usize>
    ensures { result ≡ position (has_hash hash.now) releases.now }
{
    releases.iter().position(|release| *hash == release.hash)
}

/// Whether a release has the hash.
pub fn has_hash(releases: &[Release], hash: &[u8; 32]) -> bool
    ensures { result ≡ list_any (has_hash hash.now) releases.now }
{
    releases.iter().any(|release| *hash == release.hash)
}

/// The index of the cohort of a name.
pub fn index_of_cohort(cohorts: &[Cohort], name: &str) -> Option<usize>
    ensures { result ≡ position (is_cohort name.now) cohorts.now }
{
    cohorts
        .iter()
        .position(|cohort| name == cohort.name.as_str())
}

/// Whether there is a cohort of a name.
pub fn has_cohort(cohorts: &[Cohort], name: &str) -> bool
    ensures { result ≡ has_cohort cohorts.now name.now }
{
    cohorts.iter().any(|cohort| name == cohort.name.as_str())
}
