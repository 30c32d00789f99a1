//! The review of a change as JSON objects, one on each line.

ghost use Rattle.std.specs.Prelude.{◌≡◌, ◌++◌, IfOk, OnOk, option_and_then};
ghost use Rattle.review_reports.specs.ChangeLines.{line_by, line_for};
ghost use Rattle.review_reports.specs.Objects.{object_line};
ghost use Rattle.review_reports.specs.ChangeObjects.{bytes_if, change_data, change_kind, change_objects, change_summary, cut_off_object, cut_off_objects, newly_stuck_object, newly_stuck_objects, offer_object, offer_objects, size_kind, stuck_object};

use crate::change::{Change, Clients};
use crate::change_lines::{bytes_before, bytes_of, is_newly_stuck, newly_stuck_total, was_stuck};
use crate::line::{find_app, lane_word};
use crate::members::{Member, push_object};
use crate::objects::{capped, push_stuck_object};
use crate::stuck::release_total;
use catalogue::{App, Catalogue};
use reviews::{Outcome, Reviewed, TrackReview, cohort_name, spelled_at};
use std::alloc::{AllocError, Global};

fn bytes_if(outcome: Outcome) -> Option<u64>
    ensures { result ≡ bytes_if outcome }
{
    match outcome {
        Outcome::Here => Some(0),
        Outcome::Next { sum, .. } => Some(sum),
        Outcome::Stuck(_) => None,
    }
}

fn bytes_was(was: Option<Outcome>) -> Option<u64>
    ensures { result ≡ option_and_then bytes_if was }
{
    match was {
        Some(outcome) => bytes_if(outcome),
        None => None,
    }
}

fn size_kind(before: u64, after: u64) -> &'static str
    ensures { result.now ≡ size_kind before after }
{
    if before < after {
        "larger"
    } else if after < before {
        "smaller"
    } else {
        "other"
    }
}

fn change_kind(change: &Change) -> &'static str
    ensures { result.now ≡ change_kind change.now }
{
    if was_stuck(&change.was) {
        "freed"
    } else {
        size_kind(bytes_before(&change.was), bytes_of(&change.becomes))
    }
}

fn push_change(
    alloc: Global,
    text: &mut Vec<u8>,
    app: &App,
    change: &Change,
) -> Result<(), AllocError>
    ensures { OnOk result (text.new.items ≡ text.old.items ++ object_line (change_data app.now change.now)) }
{
    let table = [
        Member::Bytes("after", bytes_if(change.becomes)),
        Member::String("app", app.id.as_str()),
        Member::Bytes("before", bytes_was(change.was)),
        Member::String("cohort", cohort_name(app, change.clients.cohort)),
        Member::Boolean("downgrade", change.clients.rollback),
        Member::String("kind", change_kind(change)),
        Member::String("lane", lane_word(change.clients.lane)),
        Member::String("version", spelled_at(app, change.release)),
    ];
    push_object(alloc, text, &table)
}

// Adds the line of a release that is stuck after a change, and none for any other.
fn push_outcome(
    alloc: Global,
    text: &mut Vec<u8>,
    app: &App,
    change: &Change,
    becomes: Outcome,
) -> Result<(), AllocError>
    ensures { OnOk result (text.new.items ≡ text.old.items ++ stuck_object app.now change.now becomes) }
{
    match becomes {
        Outcome::Here => Ok(()),
        Outcome::Next { .. } => Ok(()),
        Outcome::Stuck(reason) => {
            let clients = &change.clients;
            push_stuck_object(
                alloc,
                text,
                app,
                "newly_stuck",
                clients,
                change.release,
                reason,
            )
        }
    }
}

// Adds the line of a newly stuck release, and none for any other.
fn push_newly_stuck_object(
    alloc: Global,
    text: &mut Vec<u8>,
    app: &App,
    change: &Change,
) -> Result<(), AllocError>
    ensures { OnOk result (text.new.items ≡ text.old.items ++ newly_stuck_object app.now change.now) }
{
    if is_newly_stuck(change) {
        push_outcome(alloc, text, app, change, change.becomes)
    } else {
        Ok(())
    }
}

// Adds the line of a changed release that isn't newly stuck.
fn push_offer_object(
    alloc: Global,
    text: &mut Vec<u8>,
    app: &App,
    change: &Change,
) -> Result<(), AllocError>
    ensures { OnOk result (text.new.items ≡ text.old.items ++ offer_object app.now change.now) }
{
    if is_newly_stuck(change) {
        return Ok(());
    }
    push_change(alloc, text, app, change)
}

// Adds the line of new clients who are cut off.
fn push_cut_off_object(
    alloc: Global,
    text: &mut Vec<u8>,
    app: &App,
    clients: &Clients,
) -> Result<(), AllocError>
    ensures { OnOk result (text.new.items ≡ text.old.items ++ cut_off_object app.now clients.now) }
{
    let table = [
        Member::String("app", app.id.as_str()),
        Member::String("cohort", cohort_name(app, clients.cohort)),
        Member::Boolean("downgrade", clients.rollback),
        Member::String("kind", "newly_stuck"),
        Member::String("lane", lane_word(clients.lane)),
    ];
    push_object(alloc, text, &table)
}

fn push_newly_stuck_object_of(
    alloc: Global,
    text: &mut Vec<u8>,
    catalogue: &Catalogue,
    change: &Change,
) -> Result<(), AllocError>
    ensures { OnOk result (text.new.items ≡ text.old.items ++ line_by newly_stuck_object catalogue.now change.now) }
{
    match find_app(catalogue, change.clients.app) {
        Some(app) => push_newly_stuck_object(alloc, text, app, change),
        None => Ok(()),
    }
}

fn push_offer_object_of(
    alloc: Global,
    text: &mut Vec<u8>,
    catalogue: &Catalogue,
    change: &Change,
) -> Result<(), AllocError>
    ensures { OnOk result (text.new.items ≡ text.old.items ++ line_by offer_object catalogue.now change.now) }
{
    match find_app(catalogue, change.clients.app) {
        Some(app) => push_offer_object(alloc, text, app, change),
        None => Ok(()),
    }
}

fn push_cut_off_object_of(
    alloc: Global,
    text: &mut Vec<u8>,
    catalogue: &Catalogue,
    clients: &Clients,
) -> Result<(), AllocError>
    ensures { OnOk result (text.new.items ≡ text.old.items ++ line_for cut_off_object catalogue.now clients.now) }
{
    match find_app(catalogue, clients.app) {
        Some(app) => push_cut_off_object(alloc, text, app, clients),
        None => Ok(()),
    }
}

fn push_newly_stuck_objects(
    alloc: Global,
    text: &mut Vec<u8>,
    catalogue: &Catalogue,
    changes: &[Change],
) -> Result<(), AllocError>
    ensures { OnOk result (text.new.items ≡ text.old.items ++ newly_stuck_objects catalogue.now changes.now) }
{
    for change in changes {
        push_newly_stuck_object_of(alloc, text, catalogue, change)?;
    }
    Ok(())
}

fn push_cut_off_objects(
    alloc: Global,
    text: &mut Vec<u8>,
    catalogue: &Catalogue,
    cut_off: &[Clients],
) -> Result<(), AllocError>
    ensures { OnOk result (text.new.items ≡ text.old.items ++ cut_off_objects catalogue.now cut_off.now) }
{
    for clients in cut_off {
        push_cut_off_object_of(alloc, text, catalogue, clients)?;
    }
    Ok(())
}

fn push_offer_objects(
    alloc: Global,
    text: &mut Vec<u8>,
    catalogue: &Catalogue,
    changes: &[Change],
) -> Result<(), AllocError>
    ensures { OnOk result (text.new.items ≡ text.old.items ++ offer_objects catalogue.now changes.now) }
{
    for change in changes {
        push_offer_object_of(alloc, text, catalogue, change)?;
    }
    Ok(())
}

fn push_summary(
    alloc: Global,
    text: &mut Vec<u8>,
    reviews: &[TrackReview],
    changes: &[Change],
    cut_off: &[Clients],
) -> Result<(), AllocError>
    ensures { OnOk result (text.new.items ≡ text.old.items ++ object_line (change_summary reviews.now changes.now cut_off.now)) }
{
    let releases = capped(release_total(reviews));
    let stuck = capped(newly_stuck_total(changes, cut_off));
    let table = [
        Member::Whole("changed", changes.len() as u64),
        Member::String("kind", "summary"),
        Member::Whole("newly_stuck", stuck),
        Member::Whole("releases", releases),
        Member::Whole("tracks", reviews.len() as u64),
    ];
    push_object(alloc, text, &table)
}

// rule: Change as JSON
/// Writes the review of a change as JSON objects, one on each line, by the catalogue after it.
///
/// The `kind` of an object is `newly_stuck`, `larger`, `smaller`, `other`, `freed` or, of the last one, `summary`. An
/// object of new clients who are cut off is `newly_stuck` without a version and a reason. Bytes are `null` of clients who
/// are stuck or weren't there. Out of memory is the only error.
pub fn write_change_objects(
    alloc: Global,
    after: &Reviewed<'_>,
    changes: &[Change],
    cut_off: &[Clients],
) -> Result<Vec<u8>, AllocError>
    ensures { IfOk result (λ text. text.items ≡ change_objects after.now.catalogue.now after.now.tracks.now changes.now cut_off.now) }
{
    let mut text = Vec::new(alloc);
    push_newly_stuck_objects(alloc, &mut text, after.catalogue, changes)?;
    push_cut_off_objects(alloc, &mut text, after.catalogue, cut_off)?;
    push_offer_objects(alloc, &mut text, after.catalogue, changes)?;
    push_summary(alloc, &mut text, after.tracks, changes, cut_off)?;
    Ok(text)
}
