//! Reviews as JSON objects, one on each line.

ghost use Rattle.std.specs.Prelude.{◌≡◌, ◌++◌, IfOk, OnOk};
ghost use Rattle.review_reports.specs.Objects.{all_objects, capped, chain_data, chain_object, chain_objects, newcomers_bytes, newcomers_data, object_line, review_objects, stuck_data, stuck_line, stuck_objects, summary_data, track_data, track_objects, track_objects_among};

use crate::change::Clients;
use crate::line::{find_app, lane_word};
use crate::members::{Member, push_object};
use crate::review_lines::{bytes_from, clients_on, steps_from};
use crate::stuck::{StuckRelease, count_stuck, release_total, stuck_of, stuck_total};
use catalogue::{App, Catalogue};
use quotes::Quote;
use reviews::{Largest, Reason, TrackReview, cohort_name, spelled_at};
use std::alloc::{AllocError, Global};

/// A total; one past the largest number of 64 bits is that.
pub(crate) fn capped(total: u128) -> u64
    ensures { result ≡ capped total }
{
    if total <= u64::MAX as u128 {
        total as u64
    } else {
        u64::MAX
    }
}

fn push_track_object(
    alloc: Global,
    text: &mut Vec<u8>,
    app: &App,
    review: &TrackReview,
) -> Result<(), AllocError>
    ensures { OnOk result (text.new.items ≡ text.old.items ++ object_line (track_data app.now review.now)) }
{
    let table = [
        Member::String("app", app.id.as_str()),
        Member::String("cohort", cohort_name(app, review.key.cohort)),
        Member::Boolean("downgrade", review.key.rollback),
        Member::String("kind", "track"),
        Member::String("lane", lane_word(review.key.lane)),
        Member::Whole("releases", review.outcomes.len() as u64),
        Member::Whole("stuck", count_stuck(review.outcomes.as_slice()) as u64),
        Member::String("target", spelled_at(app, review.target)),
    ];
    push_object(alloc, text, &table)
}

/// Adds the line of a stuck release.
pub(crate) fn push_stuck_object<'x>(
    alloc: Global,
    text: &mut Vec<u8>,
    app: &'x App,
    kind: &'x str,
    clients: &Clients,
    release: usize,
    reason: Reason,
) -> Result<(), AllocError>
    ensures { OnOk result (text.new.items ≡ text.old.items ++ object_line (stuck_data app.now kind.now clients.now release reason)) }
{
    let reason = format!(in alloc; "{reason}")?;
    let table = [
        Member::String("app", app.id.as_str()),
        Member::String("cohort", cohort_name(app, clients.cohort)),
        Member::Boolean("downgrade", clients.rollback),
        Member::String("kind", kind),
        Member::String("lane", lane_word(clients.lane)),
        Member::String("reason", reason.as_str()),
        Member::String("version", spelled_at(app, release)),
    ];
    push_object(alloc, text, &table)
}

// Adds the line of a stuck release of a track.
fn push_stuck_release(
    alloc: Global,
    text: &mut Vec<u8>,
    app: &App,
    clients: &Clients,
    one: &StuckRelease,
) -> Result<(), AllocError>
    ensures { OnOk result (text.new.items ≡ text.old.items ++ stuck_line app.now clients.now one.now) }
{
    push_stuck_object(alloc, text, app, "stuck", clients, one.release, one.reason)
}

// Adds a line for each of some stuck releases of a track.
fn push_stuck_objects(
    alloc: Global,
    text: &mut Vec<u8>,
    app: &App,
    clients: &Clients,
    stuck: &[StuckRelease],
) -> Result<(), AllocError>
    ensures { OnOk result (text.new.items ≡ text.old.items ++ stuck_objects app.now clients.now stuck.now) }
{
    for one in stuck {
        push_stuck_release(alloc, text, app, clients, one)?;
    }
    Ok(())
}

fn push_chain<'x>(
    alloc: Global,
    text: &mut Vec<u8>,
    app: &'x App,
    kind: &'x str,
    review: &TrackReview,
    best: &Largest,
) -> Result<(), AllocError>
    ensures { OnOk result (text.new.items ≡ text.old.items ++ object_line (chain_data app.now kind.now review.now best.now)) }
{
    let table = [
        Member::String("app", app.id.as_str()),
        Member::Whole("bytes", bytes_from(review, best.from)),
        Member::String("cohort", cohort_name(app, review.key.cohort)),
        Member::Boolean("downgrade", review.key.rollback),
        Member::String("from", spelled_at(app, best.from)),
        Member::String("kind", kind),
        Member::String("lane", lane_word(review.key.lane)),
        Member::Whole("steps", steps_from(review, best.from)),
    ];
    push_object(alloc, text, &table)
}

// Adds the line of a chain, and none if no release has one.
fn push_chain_object(
    alloc: Global,
    text: &mut Vec<u8>,
    app: &App,
    kind: &str,
    review: &TrackReview,
    largest: Option<Largest>,
) -> Result<(), AllocError>
    ensures { OnOk result (text.new.items ≡ text.old.items ++ chain_object app.now kind.now review.now largest) }
{
    match largest {
        None => Ok(()),
        Some(best) => push_chain(alloc, text, app, kind, review, &best),
    }
}

fn newcomers_bytes(newcomers: Quote) -> Option<u64>
    ensures { result ≡ newcomers_bytes newcomers }
{
    match newcomers {
        Quote::Here => Some(0),
        Quote::Next { sum, .. } => Some(sum),
        Quote::NoChain => None,
    }
}

fn push_newcomers_object(
    alloc: Global,
    text: &mut Vec<u8>,
    app: &App,
    review: &TrackReview,
) -> Result<(), AllocError>
    ensures { OnOk result (text.new.items ≡ text.old.items ++ object_line (newcomers_data app.now review.now)) }
{
    let table = [
        Member::String("app", app.id.as_str()),
        Member::Bytes("bytes", newcomers_bytes(review.newcomers)),
        Member::String("cohort", cohort_name(app, review.key.cohort)),
        Member::Boolean("downgrade", review.key.rollback),
        Member::String("kind", "new"),
        Member::String("lane", lane_word(review.key.lane)),
    ];
    push_object(alloc, text, &table)
}

// Adds the lines of the chains of a track, and of clients outside of all releases.
fn push_chain_objects(
    alloc: Global,
    text: &mut Vec<u8>,
    app: &App,
    review: &TrackReview,
) -> Result<(), AllocError>
    ensures { OnOk result (text.new.items ≡ text.old.items ++ chain_objects app.now review.now) }
{
    push_chain_object(alloc, text, app, "largest", review, review.largest)?;
    push_chain_object(alloc, text, app, "longest", review, review.longest)?;
    push_newcomers_object(alloc, text, app, review)
}

// rule: Objects of a track
// Adds the lines of a track.
fn push_objects(
    alloc: Global,
    text: &mut Vec<u8>,
    app: &App,
    review: &TrackReview,
) -> Result<(), AllocError>
    ensures { OnOk result (text.new.items ≡ text.old.items ++ track_objects app.now review.now) }
{
    let stuck = stuck_of(alloc, review.outcomes.as_slice())?;
    let clients = clients_on(&review.key);
    push_track_object(alloc, text, app, review)?;
    push_stuck_objects(alloc, text, app, &clients, stuck.as_slice())?;
    push_chain_objects(alloc, text, app, review)
}

fn push_objects_among(
    alloc: Global,
    text: &mut Vec<u8>,
    catalogue: &Catalogue,
    review: &TrackReview,
) -> Result<(), AllocError>
    ensures { OnOk result (text.new.items ≡ text.old.items ++ track_objects_among catalogue.now review.now) }
{
    match find_app(catalogue, review.key.app) {
        Some(app) => push_objects(alloc, text, app, review),
        None => Ok(()),
    }
}

fn push_all_objects(
    alloc: Global,
    text: &mut Vec<u8>,
    catalogue: &Catalogue,
    reviews: &[TrackReview],
) -> Result<(), AllocError>
    ensures { OnOk result (text.new.items ≡ text.old.items ++ all_objects catalogue.now reviews.now) }
{
    for review in reviews {
        push_objects_among(alloc, text, catalogue, review)?;
    }
    Ok(())
}

fn push_summary(
    alloc: Global,
    text: &mut Vec<u8>,
    reviews: &[TrackReview],
) -> Result<(), AllocError>
    ensures { OnOk result (text.new.items ≡ text.old.items ++ object_line (summary_data reviews.now)) }
{
    let releases = capped(release_total(reviews));
    let stuck = capped(stuck_total(reviews));
    let table = [
        Member::String("kind", "summary"),
        Member::Whole("releases", releases),
        Member::Whole("stuck", stuck),
        Member::Whole("tracks", reviews.len() as u64),
    ];
    push_object(alloc, text, &table)
}

// rule: Review as JSON
/// Writes the review of a catalogue as JSON objects, one on each line.
///
/// The `kind` of an object is `track`, `stuck`, `largest`, `longest`, `new` or, of the last one, `summary`. A track has
/// one of each stuck release, and none of a chain that no release has. Out of memory is the only error.
pub fn write_review_objects(
    alloc: Global,
    catalogue: &Catalogue,
    reviews: &[TrackReview],
) -> Result<Vec<u8>, AllocError>
    ensures { IfOk result (λ text. text.items ≡ review_objects catalogue.now reviews.now) }
{
    let mut text = Vec::new(alloc);
    push_all_objects(alloc, &mut text, catalogue, reviews)?;
    push_summary(alloc, &mut text, reviews)?;
    Ok(text)
}
