//! The full packages of a track without one of its rules.

ghost use Rattle.std.specs.Prelude.{◌≡◌, ◌<◌, ◌&&◌, not, true, IfOk, Some, length, map, slice_get};
ghost use Rattle.std.specs.List.{enumerate_from, list_all, list_any};
ghost use Rattle.std.specs.Option.{is_some};
ghost use Rattle.std.specs.Str.{bytes_eq};
ghost use Rattle.values.specs.Ordered.{ascend};
ghost use Rattle.catalogue.specs.Versions.{zero_version};
ghost use Rattle.catalogue.specs.Lookups.{is_release, place_of};
ghost use Rattle.catalogue.specs.Validity.{is_release_below};
ghost use Rattle.catalogue.specs.declared.content.Release.{Release};
ghost use Rattle.cohorts.specs.Offers.{is_offered, is_open_to};
ghost use Rattle.cohorts.specs.declared.pin.Pin.TheVariants as pin;
ghost use Rattle.payload_graph.specs.Net.{door_of, doors_of};
ghost use Rattle.payload_graph.specs.Permitted.{rolls_back};
ghost use Rattle.reviews.specs.Lifts.{is_idle, is_open_way, lifted_cohort, lifted_key, lifted_release, lifted_releases};
ghost use Rattle.reviews.specs.Routes.{lifted_door, AreRoads};

use crate::cause::Cause;
use crate::roads::Roads;
use catalogue::{Cohort, Release, Version, lookup};
use cohorts::{Pin, is_offered};
use payload_graph::{Door, TrackKey, rolls_back};
use std::alloc::{AllocError, Global};
use values::Text;

fn is_among(name: &str, names: &[Text]) -> bool
    ensures { result ≡ list_any (bytes_eq name.now) names.now }
{
    names.iter().any(|other| name == other.as_str())
}

// rule: Audience
fn is_open_to(cohort: &Cohort, release: &Release) -> bool
    ensures { result ≡ is_open_to cohort.now release.now }
{
    match &release.audience {
        Some(names) => is_among(cohort.name.as_str(), names.as_slice()),
        None => true,
    }
}

// Whether a release is offered to a cohort's clients without a rule. Versions are compared only if the rule counts.
fn is_offered_without(cause: Cause, cohort: &Cohort, target: &Version, release: &Release) -> bool
    ensures { result ≡ is_offered (lifted_cohort cause cohort.now) pin.Any (lifted_release cause target.now release.now) }
{
    match cause {
        Cause::Withdrawn if release.withdrawn && target.is_equal(&release.version) => {
            is_open_to(cohort, release)
        }
        Cause::Audience if release.audience.is_some() && target.is_equal(&release.version) => {
            !release.withdrawn
        }
        _ => is_offered(cohort, &Pin::Any, release),
    }
}

// The index of the lowest release that isn't below a version.
fn floor_of(releases: &[Release], version: &Version) -> usize
    requires { ascend is_release_below releases.now ≡ true }
    ensures { result ≡ place_of version.now releases.now }
{
    match releases.first() {
        Some(lowest) if lowest.version.is_below(version) => lookup::place_of(releases, version),
        _ => 0,
    }
}

// The floor of a release without a rule.
fn floor_without(cause: Cause, releases: &[Release], release: &Release, target: &Version) -> usize
    requires { ascend is_release_below releases.now ≡ true }
    ensures { result ≡ place_of (lifted_release cause target.now release.now).floor releases.now }
{
    match cause {
        Cause::Floor => floor_of(releases, &Version::zero()),
        _ => floor_of(releases, &release.floor),
    }
}

fn is_stone_without(cause: Cause, release: &Release, target: &Version) -> bool
    ensures { result ≡ (lifted_release cause target.now release.now).stone }
{
    match cause {
        Cause::Stone => false,
        _ => release.stone,
    }
}

// A release as a destination without a rule.
fn door_without(
    cause: Cause,
    cohort: &Cohort,
    releases: &[Release],
    target: &Version,
    to: usize,
    release: &Release,
) -> Door
    requires { ascend is_release_below releases.now ≡ true }
    ensures { result ≡ door_of (lifted_cohort cause cohort.now) pin.Any (lifted_releases cause target.now releases.now) to (lifted_release cause target.now release.now) }
{
    Door {
        to,
        bytes: release.size,
        offered: is_offered_without(cause, cohort, target, release),
        stone: is_stone_without(cause, release, target),
        floor: floor_without(cause, releases, release, target),
    }
}

fn doors_without(
    alloc: Global,
    cause: Cause,
    cohort: &Cohort,
    releases: &[Release],
    target: &Version,
) -> Result<Vec<Door>, AllocError>
    requires { ascend is_release_below releases.now ≡ true }
    ensures { IfOk result (λ doors. doors.items ≡ map (lifted_door cause cohort.now releases.now target.now) (enumerate_from 0 releases.now)) }
{
    releases
        .iter()
        .enumerate()
        .map(|(to, release)| door_without(cause, cohort, releases, target, to, release))
        .collect(alloc)
}

fn rolls_back_without(cause: Cause, cohort: &Cohort, key: &TrackKey) -> bool
    ensures { result ≡ rolls_back (lifted_cohort cause cohort.now) (lifted_key cause key.now) }
{
    match cause {
        Cause::Downgrade => true,
        _ => rolls_back(cohort, key),
    }
}

// rule: Lifted rule
/// The full packages of a track without a rule; the target is given by its index.
pub(crate) fn roads_without(
    alloc: Global,
    cause: Cause,
    cohort: &Cohort,
    key: &TrackKey,
    releases: &[Release],
    target: usize,
) -> Result<Roads, AllocError>
    requires rises { ascend is_release_below releases.now ≡ true }
    requires within { target < length releases.now }
    ensures roads { IfOk result AreRoads }
    ensures target { IfOk result (λ roads. roads.target ≡ target) }
    ensures rollback { IfOk result (λ roads. roads.rollback ≡ rolls_back (lifted_cohort cause cohort.now) (lifted_key cause key.now)) }
    ensures doors { (release : Release) → slice_get releases.now target ≡ Some release →
        IfOk result (λ roads. roads.doors.items ≡ doors_of (lifted_cohort cause cohort.now) pin.Any (lifted_releases cause release.version releases.now)) }
{
    let version = &releases[target].version;
    let doors = doors_without(alloc, cause, cohort, releases, version)?;
    Ok(Roads {
        target,
        rollback: rolls_back_without(cause, cohort, key),
        doors,
    })
}

fn is_withdrawn_target(target: &Version, release: &Release) -> bool
    ensures { result ≡ (release.now.withdrawn && is_release target.now release.now) }
{
    release.withdrawn && target.is_equal(&release.version)
}

fn is_closed_target(target: &Version, release: &Release) -> bool
    ensures { result ≡ (is_some release.now.audience && is_release target.now release.now) }
{
    release.audience.is_some() && target.is_equal(&release.version)
}

fn is_offered_if_target(target: &Version, releases: &[Release]) -> bool
    ensures { result ≡ list_all (λ release. not (release.withdrawn && is_release target.now release)) releases.now }
{
    releases
        .iter()
        .all(|release| !is_withdrawn_target(target, release))
}

fn is_open_if_target(target: &Version, releases: &[Release]) -> bool
    ensures { result ≡ list_all (λ release. not (is_some release.audience && is_release target.now release)) releases.now }
{
    releases
        .iter()
        .all(|release| !is_closed_target(target, release))
}

fn has_no_stone(releases: &[Release]) -> bool
    ensures { result ≡ list_all (λ release. not release.stone) releases.now }
{
    releases.iter().all(|release| !release.stone)
}

fn has_no_floor(releases: &[Release]) -> bool
    ensures { result ≡ list_all (λ release. bytes_eq release.floor zero_version) releases.now }
{
    let zero = Version::zero();
    releases.iter().all(|release| release.floor.is_equal(&zero))
}

/// Whether the releases of a track are the same without a rule.
pub(crate) fn is_idle(cause: Cause, target: &Version, releases: &[Release]) -> bool
    ensures { result ≡ is_idle cause target.now releases.now }
{
    match cause {
        Cause::Withdrawn => is_offered_if_target(target, releases),
        Cause::Audience => is_open_if_target(target, releases),
        Cause::Stone => has_no_stone(releases),
        Cause::Floor => has_no_floor(releases),
        Cause::Downgrade => false,
    }
}

/// Whether no release is a stone and a release is offered to a cohort's clients whatever their version, so that its full
/// package leads there from each other one, if downgrades are allowed.
pub(crate) fn is_open_way(cohort: &Cohort, releases: &[Release], release: &Release) -> bool
    requires { ascend is_release_below releases.now ≡ true }
    ensures { result ≡ is_open_way cohort.now releases.now release.now }
{
    has_no_stone(releases)
        && (is_offered(cohort, &Pin::Any, release) && floor_of(releases, &release.floor) == 0)
}
