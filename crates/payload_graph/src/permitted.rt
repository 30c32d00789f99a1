//! The rule of permitted payloads: each function decides one of its lines.

ghost use Rattle.std.specs.Prelude.{◌≡◌};
ghost use Rattle.std.specs.List.{list_any};
ghost use Rattle.std.specs.Option.{option_copied};
ghost use Rattle.payload_graph.specs.Permitted.{end_of, is_offered_at, is_stone_between, jumps_stone, leads_down, leads_up, meets_floor, permits, permits_among, permits_differ, permits_from, permits_full, permits_in, rolls_back, starts_at};

use crate::payload::{Payload, TrackKey};
use crate::place::{Place, version_at};
use catalogue::{App, Catalogue, Cohort, Diff, Release, Version};
use cohorts::{Pin, is_offered, track_target};

// rule: Floor
fn meets_floor(from: &Version, release: &Release) -> bool
    ensures { result ≡ meets_floor from.now release.now }
{
    !from.is_below(&release.floor)
}

/// Whether a release is offered to those clients of a cohort and a pin that are at a version.
///
/// It is if it is offered to the cohort's clients of the pin, and the version isn't below the release's floor.
pub fn is_offered_at(cohort: &Cohort, pin: &Pin, from: &Version, release: &Release) -> bool
    ensures { result ≡ is_offered_at cohort.now pin.now from.now release.now }
{
    is_offered(cohort, pin, release) && meets_floor(from, release)
}

fn is_stone_between(lower: &Version, upper: &Version, release: &Release) -> bool
    ensures { result ≡ is_stone_between lower.now upper.now release.now }
{
    release.stone && (lower.is_below(&release.version) && release.version.is_below(upper))
}

// rule: Stone
fn jumps_stone(releases: &[Release], lower: &Version, upper: &Version) -> bool
    ensures { result ≡ jumps_stone releases.now lower.now upper.now }
{
    releases
        .iter()
        .any(|release| is_stone_between(lower, upper, release))
}

// rule: Upward
fn leads_up(releases: &[Release], target: &Version, from: &Version, to: &Version) -> bool
    ensures { result ≡ leads_up releases.now target.now from.now to.now }
{
    from.is_below(to) && (!target.is_below(to) && !jumps_stone(releases, from, to))
}

// rule: Downward
fn leads_down(target: &Version, from: &Version, to: &Version) -> bool
    ensures { result ≡ leads_down target.now from.now to.now }
{
    target.is_below(from) && to.is_below(from)
}

// rule: Rollback of a key
/// Whether a track of a cohort leads clients down from above its target.
pub fn rolls_back(cohort: &Cohort, key: &TrackKey) -> bool
    ensures { result ≡ rolls_back cohort.now key.now }
{
    cohort.rollback && key.rollback
}

fn permits_full(
    releases: &[Release],
    cohort: &Cohort,
    key: &TrackKey,
    target: &Version,
    from: &Version,
    to: &Release,
) -> bool
    ensures { result ≡ permits_full releases.now cohort.now key.now target.now from.now to.now }
{
    is_offered_at(cohort, &key.pin, from, to)
        && (leads_up(releases, target, from, &to.version)
            || (rolls_back(cohort, key) && leads_down(target, from, &to.version)))
}

fn starts_at(releases: &[Release], place: &Place, diff: &Diff) -> bool
    ensures { result ≡ starts_at releases.now place.now diff.now }
{
    let Place::At(release) = place else {
        return false;
    };
    match releases.get(*release) {
        Some(there) => diff.from.is_equal(&there.version),
        None => false,
    }
}

fn find_end<'a>(releases: &'a [Release], diff: &Diff) -> Option<&'a Release>
    ensures { option_copied result ≡ end_of releases.now diff.now }
{
    releases
        .iter()
        .find(|release| diff.to.is_equal(&release.version))
}

fn permits_differ(
    releases: &[Release],
    cohort: &Cohort,
    pin: &Pin,
    target: &Version,
    diff: &Diff,
) -> bool
    ensures { result ≡ permits_differ releases.now cohort.now pin.now target.now diff.now }
{
    match find_end(releases, diff) {
        Some(to) => {
            is_offered_at(cohort, pin, &diff.from, to)
                && leads_up(releases, target, &diff.from, &to.version)
        }
        None => false,
    }
}

fn permits_from(
    app: &App,
    cohort: &Cohort,
    key: &TrackKey,
    target: &Version,
    place: &Place,
    payload: &Payload,
) -> bool
    ensures { result ≡ permits_from app.now cohort.now key.now target.now place.now payload.now }
{
    let releases = app.releases.as_slice();
    match payload {
        Payload::Full(release) => match (releases.get(*release), version_at(releases, place)) {
            (Some(to), Some(from)) => permits_full(releases, cohort, key, target, &from, to),
            _ => false,
        },
        Payload::Differ(index) => match app.diffs.as_slice().get(*index) {
            Some(shared) => {
                let diff = shared.get();
                starts_at(releases, place, diff)
                    && permits_differ(releases, cohort, &key.pin, target, diff)
            }
            None => false,
        },
    }
}

fn permits_in(app: &App, cohort: &Cohort, key: &TrackKey, place: &Place, payload: &Payload) -> bool
    ensures { result ≡ permits_in app.now cohort.now key.now place.now payload.now }
{
    match track_target(app.releases.as_slice(), cohort, key.lane, &key.pin) {
        Some(target) => permits_from(app, cohort, key, &target, place, payload),
        None => false,
    }
}

fn permits_in_app(app: &App, key: &TrackKey, place: &Place, payload: &Payload) -> bool
    ensures { result ≡ permits app.now key.now place.now payload.now }
{
    match app.cohorts.as_slice().get(key.cohort) {
        Some(cohort) => permits_in(app, cohort, key, place, payload),
        None => false,
    }
}

// rule: Permitted on a track
/// Whether a payload may be offered to the clients of a track at a place.
///
/// The track has a target, the release that the payload leads to is offered to the track's clients,
/// the place's version meets its floor, and either the payload leads up, not above the target, with no
/// stone strictly between; or it is a full package that leads down from above the target, and the cohort
/// and the key allow that. A differential starts at the place itself. An index that is out of range is no
/// error: nothing is permitted. It tests every release for a stone; to go through all payloads of a track,
/// make its graph.
pub fn permits(catalogue: &Catalogue, key: &TrackKey, place: &Place, payload: &Payload) -> bool
    ensures { result ≡ permits_among catalogue.now key.now place.now payload.now }
{
    match catalogue.apps().get(key.app) {
        Some(app) => permits_in_app(app, key, place, payload),
        None => false,
    }
}
