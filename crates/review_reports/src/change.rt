//! What a change of a catalogue makes of its clients.

ghost use Rattle.std.specs.Prelude.{◌≡◌, ◌++◌, ◌||◌, [], true, if◌then◌else◌, IfOk, OnOk, filter_map, length, position};
ghost use Rattle.std.specs.List.{cons_option, flat_map, range_with_len};
ghost use Rattle.values.specs.Ordered.{ascend};
ghost use Rattle.catalogue.specs.Lookups.{cohorts_at, is_release, releases_at};
ghost use Rattle.catalogue.specs.Validity.{is_release_below};
ghost use Rattle.review_reports.specs.Changes.{are_same_clients, arrival_at, arrival_by, arrivals_between, arrivals_of, change_at, change_by, change_from, changes_between, changes_of, changes_of_pair, changes_on, changes_to, clients_of, had_target, has_clients, has_clients_on, has_downgrades, has_lane, is_changed, is_lane_before, is_same_cohort, is_same_form, is_same_lane, is_same_lane_of, is_same_payload, is_same_version, is_served, is_target_of, version_to, was_at};
ghost use Rattle.reviews.specs.declared.review.TrackReview.{TrackReview};

use crate::line::find_app;
use catalogue::{App, Catalogue, Cohort, Release, Version, lookup};
use cohorts::Lane;
use payload_graph::{Payload, TrackKey};
use reviews::{Outcome, Reviewed, TrackReview, is_stuck};
use std::alloc::{AllocError, Global};

/// The clients of a lane of a cohort that allow a downgrade, or those that don't.
#[derive(Clone, Copy)]
pub struct Clients {
    /// The index of the app, in the order of addition.
    pub app: usize,
    /// The index of the cohort that serves them, in the app's cohorts.
    pub cohort: usize,
    /// Their lane in the cohort.
    pub lane: Lane,
    /// Whether they allow a downgrade.
    pub rollback: bool,
}

/// What a change makes of the clients of a track at a release.
#[derive(Clone, Copy)]
pub struct Change {
    /// The clients, by the indexes after the change.
    pub clients: Clients,
    /// The index of the release after the change.
    pub release: usize,
    /// Where its clients were, `None` if the release wasn't there or they had no target.
    pub was: Option<Outcome>,
    /// Where they are after the change.
    pub becomes: Outcome,
}

fn version_to(app: &App, payload: Payload) -> Option<Version>
    ensures { result ≡ version_to app.now payload }
{
    match payload {
        Payload::Full(release) => app
            .releases
            .as_slice()
            .get(release)
            .map(|there| there.version),
        Payload::Differ(index) => app.diffs.as_slice().get(index).map(|there| there.get().to),
    }
}

fn is_same_form(one: Payload, other: Payload) -> bool
    ensures { result ≡ is_same_form one other }
{
    match one {
        Payload::Full(_) => matches!(other, Payload::Full(_)),
        Payload::Differ(_) => matches!(other, Payload::Differ(_)),
    }
}

fn is_same_version(one: Option<Version>, other: Option<Version>) -> bool
    ensures { result ≡ is_same_version one other }
{
    match (one, other) {
        (Some(one), Some(other)) => one.is_equal(&other),
        _ => false,
    }
}

fn is_same_payload(before: &App, after: &App, one: Payload, other: Payload) -> bool
    ensures { result ≡ is_same_payload before.now after.now one other }
{
    is_same_form(one, other) && is_same_version(version_to(before, one), version_to(after, other))
}

// rule: Changed release
fn is_changed(before: &App, after: &App, was: Outcome, becomes: Outcome) -> bool
    ensures { result ≡ is_changed before.now after.now was becomes }
{
    match was {
        Outcome::Here => !matches!(becomes, Outcome::Here),
        Outcome::Stuck(_) => !matches!(becomes, Outcome::Stuck(_)),
        Outcome::Next { payload, sum } => match becomes {
            Outcome::Next {
                payload: other,
                sum: total,
            } => !(sum == total && is_same_payload(before, after, payload, other)),
            _ => true,
        },
    }
}

fn is_same_lane(one: Lane, other: Lane) -> bool
    ensures { result ≡ is_same_lane one other }
{
    match one {
        Lane::Target => matches!(other, Lane::Target),
        Lane::Held => matches!(other, Lane::Held),
    }
}

fn is_same_cohort(one: &TrackKey, other: &TrackKey) -> bool
    ensures { result ≡ is_same_cohort one.now other.now }
{
    one.app == other.app && one.cohort == other.cohort
}

fn is_same_lane_of(one: &TrackKey, other: &TrackKey) -> bool
    ensures { result ≡ is_same_lane_of one.now other.now }
{
    is_same_cohort(one, other) && is_same_lane(one.lane, other.lane)
}

fn has_lane(reviews: &[TrackReview], key: &TrackKey) -> bool
    ensures { result ≡ has_lane reviews.now key.now }
{
    reviews
        .iter()
        .any(|review| is_same_lane_of(&review.key, key))
}

fn has_downgrades(reviews: &[TrackReview], key: &TrackKey) -> bool
    ensures { result ≡ has_downgrades reviews.now key.now }
{
    reviews.iter().any(|review| is_same_lane_of(&review.key, key) && review.key.rollback)
}

fn is_served(reviews: &[TrackReview], key: &TrackKey, rollback: bool) -> bool
    ensures { result ≡ is_served reviews.now key.now rollback }
{
    if rollback {
        key.rollback || !has_downgrades(reviews, key)
    } else {
        !key.rollback
    }
}

// rule: Lane before a change
fn is_lane_before(before: &[TrackReview], old: &TrackKey, new: &TrackKey) -> bool
    ensures { result ≡ is_lane_before before.now old.now new.now }
{
    is_same_cohort(old, new) && (is_same_lane(old.lane, new.lane) || !has_lane(before, new))
}

fn has_clients(cohort: &Cohort, lane: Lane) -> bool
    ensures { result ≡ has_clients cohort.now lane }
{
    match lane {
        Lane::Target => 0 < cohort.share,
        Lane::Held => cohort.share < 1000,
    }
}

// The cohorts of an app before a change, none if it wasn't there.
fn cohorts_at(catalogue: &Catalogue, app: usize) -> &[Cohort]
    ensures { result.now ≡ cohorts_at catalogue.now app }
{
    match catalogue.apps().get(app) {
        Some(there) => there.cohorts.as_slice(),
        None => &[],
    }
}

fn has_clients_on(catalogue: &Catalogue, key: &TrackKey) -> bool
    ensures { result ≡ has_clients_on catalogue.now key.now }
{
    match cohorts_at(catalogue, key.app).get(key.cohort) {
        Some(cohort) => has_clients(cohort, key.lane),
        None => false,
    }
}

fn is_target_of(before: &Catalogue, old: &TrackKey, new: &TrackKey) -> bool
    ensures { result ≡ is_target_of before.now old.now new.now }
{
    is_same_cohort(old, new) && (is_same_lane(old.lane, new.lane) || has_clients_on(before, old))
}

// rule: Target before a change
/// Whether the clients of a track had a target before a change.
pub(crate) fn had_target(before: &Reviewed<'_>, new: &TrackKey) -> bool
    ensures { result ≡ had_target before.now.catalogue.now before.now.tracks.now new.now }
{
    before
        .tracks
        .iter()
        .any(|old| is_target_of(before.catalogue, &old.key, new))
}

// rule: Same clients
/// Whether the clients who allow a downgrade, or those who don't, are on one track before a change and on another after it.
pub(crate) fn are_same_clients(
    before: &[TrackReview],
    after: &[TrackReview],
    old: &TrackReview,
    new: &TrackReview,
) -> bool
    ensures { result ≡ are_same_clients before.now after.now old.now new.now }
{
    let rollback = old.key.rollback || new.key.rollback;
    is_lane_before(before, &old.key, &new.key)
        && (is_served(before, &old.key, rollback) && is_served(after, &new.key, rollback))
}

/// The clients of a track before a change and one after it.
pub(crate) fn clients_of(old: &TrackKey, new: &TrackKey) -> Clients
    ensures { result ≡ clients_of old.now new.now }
{
    Clients {
        app: new.app,
        cohort: new.cohort,
        lane: new.lane,
        rollback: old.rollback || new.rollback,
    }
}

// The change of a release of a track that was there before, if there is one.
fn change_by(
    before: &App,
    after: &App,
    clients: Clients,
    release: usize,
    was: Outcome,
    becomes: Outcome,
) -> Option<Change>
    ensures { result ≡ change_by before.now after.now clients release was becomes }
{
    if !is_changed(before, after, was, becomes) {
        return None;
    }
    Some(Change {
        clients,
        release,
        was: Some(was),
        becomes,
    })
}

// The change of a release that wasn't on the track before, if it counts and is stuck.
fn arrival_by(clients: Clients, counts: bool, release: usize, becomes: Outcome) -> Option<Change>
    ensures { result ≡ arrival_by clients counts release becomes }
{
    if !(counts && is_stuck(&becomes)) {
        return None;
    }
    Some(Change {
        clients,
        release,
        was: None,
        becomes,
    })
}

// The index of the release of a version, which is the first one to be looked at.
fn index_of_release(releases: &[Release], first: usize, version: &Version) -> Option<usize>
    requires { ascend is_release_below releases.now ≡ true }
    ensures { result ≡ position (is_release version.now) releases.now }
{
    catalogue::version_laws::order();
    match releases.get(first) {
        Some(release) if version.is_equal(&release.version) => Some(first),
        _ => lookup::index_of_release(releases, version),
    }
}

// Where the clients of a track were at the release of a version, whose index is mostly the one that it has now.
fn was_at(before: &App, old: &TrackReview, index: usize, version: &Version) -> Option<Outcome>
    requires { ascend is_release_below before.now.releases ≡ true }
    ensures { result ≡ was_at before.now old.now version.now }
{
    let from = index_of_release(before.releases.as_slice(), index, version)?;
    let was = old.outcomes.as_slice().get(from)?;
    Some(*was)
}

// The change of the release at an index of the app after, if there is one.
fn change_at(
    before: &App,
    after: &App,
    old: &TrackReview,
    new: &TrackReview,
    index: usize,
) -> Option<Change>
    requires { ascend is_release_below before.now.releases ≡ true }
    ensures { result ≡ change_at before.now after.now old.now new.now index }
{
    let release = after.releases.as_slice().get(index)?;
    let becomes = *new.outcomes.as_slice().get(index)?;
    let clients = clients_of(&old.key, &new.key);
    match was_at(before, old, index, &release.version) {
        Some(was) => change_by(before, after, clients, index, was, becomes),
        None => arrival_by(clients, index < new.target, index, becomes),
    }
}

// Adds a change, if there is one.
fn push_found(changes: &mut Vec<Change>, found: Option<Change>) -> Result<(), AllocError>
    ensures { OnOk result (changes.new.items ≡ changes.old.items ++ cons_option found []) }
{
    if let Some(change) = found {
        changes.push(change)?;
    }
    Ok(())
}

// Adds the changes of the clients of one track before and one after.
fn push_changes(
    changes: &mut Vec<Change>,
    before: &App,
    after: &App,
    old: &TrackReview,
    new: &TrackReview,
) -> Result<(), AllocError>
    requires { ascend is_release_below before.now.releases ≡ true }
    ensures { OnOk result (changes.new.items ≡ changes.old.items ++ changes_between before.now after.now old.now new.now) }
{
    for index in 0..after.releases.as_slice().len() {
        push_found(changes, change_at(before, after, old, new, index))?;
    }
    Ok(())
}

/// Adds the changes of the clients of one track before and one after, none if an app isn't there.
pub(crate) fn push_pair(
    changes: &mut Vec<Change>,
    before: &Catalogue,
    after: &Catalogue,
    old: &TrackReview,
    new: &TrackReview,
) -> Result<(), AllocError>
    ensures { OnOk result (changes.new.items ≡ changes.old.items ++ changes_of_pair before.now after.now old.now new.now) }
{
    before.validity();
    let one = before.apps().get(old.key.app);
    let other = after.apps().get(new.key.app);
    match (one, other) {
        (Some(one), Some(other)) => push_changes(changes, one, other, old, new),
        _ => Ok(()),
    }
}

// The releases of an app before a change, none if it wasn't there.
fn releases_at(catalogue: &Catalogue, app: usize) -> &[Release]
    ensures value { result.now ≡ releases_at catalogue.now app }
    ensures ascending { ascend is_release_below result.now ≡ true }
{
    catalogue.validity();
    match catalogue.apps().get(app) {
        Some(there) => there.releases.as_slice(),
        None => &[],
    }
}

// The change of a release of a track whose clients had no target before, if there is one.
fn arrival_at(before: &[Release], after: &App, new: &TrackReview, index: usize) -> Option<Change>
    requires { ascend is_release_below before.now ≡ true }
    ensures { result ≡ arrival_at before.now after.now new.now index }
{
    let release = after.releases.as_slice().get(index)?;
    let becomes = *new.outcomes.as_slice().get(index)?;
    let counts = index < new.target || lookup::has_release(before, &release.version);
    arrival_by(clients_of(&new.key, &new.key), counts, index, becomes)
}

// Adds the changes of the releases of such a track.
fn push_arrivals(
    changes: &mut Vec<Change>,
    before: &[Release],
    after: &App,
    new: &TrackReview,
) -> Result<(), AllocError>
    requires { ascend is_release_below before.now ≡ true }
    ensures { OnOk result (changes.new.items ≡ changes.old.items ++ arrivals_between before.now after.now new.now) }
{
    for index in 0..after.releases.as_slice().len() {
        push_found(changes, arrival_at(before, after, new, index))?;
    }
    Ok(())
}

/// Adds the changes of a track whose clients had no target before.
pub(crate) fn push_arrivals_of(
    changes: &mut Vec<Change>,
    before: &Catalogue,
    after: &Catalogue,
    new: &TrackReview,
) -> Result<(), AllocError>
    ensures { OnOk result (changes.new.items ≡ changes.old.items ++ arrivals_of before.now after.now new.now) }
{
    match find_app(after, new.key.app) {
        Some(app) => push_arrivals(changes, releases_at(before, new.key.app), app, new),
        None => Ok(()),
    }
}
