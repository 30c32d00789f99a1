//! How the review of a change is printed.

ghost use Rattle.std.specs.Prelude.{◌≡◌, ◌++◌, IfOk, OnOk, string_bytes};
ghost use Rattle.std.specs.List.{count_by};
ghost use Rattle.review_reports.specs.ChangeLines.{bytes_before, bytes_of, change_counts, change_facts, change_string, change_word, cut_off_line, cut_off_lines, is_newly_stuck, line_by, line_for, newly_stuck_line, newly_stuck_lines, newly_stuck_total, offer_line, offer_lines, outcome_string, size_word, string_before, was_stuck};

use crate::change::{Change, Clients};
use crate::line::{find_app, push_line, stuck_release, track_string};
use crate::stuck::totals_string;
use catalogue::{App, Catalogue};
use reviews::{Outcome, Reviewed, TrackReview, is_stuck, spelled_at};
use std::alloc::{AllocError, Global};

/// Whether clients were stuck before a change.
pub(crate) fn was_stuck(was: &Option<Outcome>) -> bool
    ensures { result ≡ was_stuck was.now }
{
    match was {
        Some(outcome) => is_stuck(outcome),
        None => false,
    }
}

// rule: Newly stuck
/// Whether a release is newly stuck.
pub(crate) fn is_newly_stuck(change: &Change) -> bool
    ensures { result ≡ is_newly_stuck change.now }
{
    is_stuck(&change.becomes) && !was_stuck(&change.was)
}

fn count_newly_stuck(changes: &[Change]) -> usize
    ensures { result ≡ count_by is_newly_stuck changes.now }
{
    changes
        .iter()
        .filter(|change| is_newly_stuck(change))
        .count()
}

// rule: Newly stuck
/// Counts the releases that a change leaves stuck and that were not stuck before it, and the new clients whom it cuts off.
pub fn newly_stuck_total(changes: &[Change], cut_off: &[Clients]) -> u128
    ensures { result ≡ newly_stuck_total changes.now cut_off.now }
{
    count_newly_stuck(changes) as u128 + cut_off.len() as u128
}

/// How many bytes clients download up to the target, 0 if they are stuck.
pub(crate) fn bytes_of(outcome: &Outcome) -> u64
    ensures { result ≡ bytes_of outcome.now }
{
    match outcome {
        Outcome::Next { sum, .. } => *sum,
        _ => 0,
    }
}

/// The same of where clients were, 0 if they were on no track.
pub(crate) fn bytes_before(was: &Option<Outcome>) -> u64
    ensures { result ≡ bytes_before was.now }
{
    match was {
        Some(outcome) => bytes_of(outcome),
        None => 0,
    }
}

fn outcome_string(alloc: Global, outcome: &Outcome) -> Result<String, AllocError>
    ensures { IfOk result (λ says. string_bytes says ≡ outcome_string outcome.now) }
{
    match outcome {
        Outcome::Here => format!(in alloc; "0 bytes"),
        Outcome::Next { sum, .. } => format!(in alloc; "{sum} bytes"),
        Outcome::Stuck(_) => format!(in alloc; "stuck"),
    }
}

fn string_before(alloc: Global, was: &Option<Outcome>) -> Result<String, AllocError>
    ensures { IfOk result (λ says. string_bytes says ≡ string_before was.now) }
{
    match was {
        Some(outcome) => outcome_string(alloc, outcome),
        None => format!(in alloc; "none"),
    }
}

fn size_word(before: u64, after: u64) -> &'static str
    ensures { result.now ≡ size_word before after }
{
    if before < after {
        "larger "
    } else if after < before {
        "smaller"
    } else {
        "other  "
    }
}

fn change_word(change: &Change) -> &'static str
    ensures { result.now ≡ change_word change.now }
{
    if was_stuck(&change.was) {
        "freed  "
    } else {
        size_word(bytes_before(&change.was), bytes_of(&change.becomes))
    }
}

fn change_facts(alloc: Global, app: &App, change: &Change) -> Result<String, AllocError>
    ensures { IfOk result (λ facts. string_bytes facts ≡ change_facts app.now change.now) }
{
    let was = string_before(alloc, &change.was)?;
    let becomes = outcome_string(alloc, &change.becomes)?;
    let before = was.as_str();
    let after = becomes.as_str();
    let spelled = spelled_at(app, change.release);
    format!(in alloc; "{spelled}, {before} to {after}")
}

// Adds the line of a newly stuck release, and none for any other.
fn push_newly_stuck(
    alloc: Global,
    text: &mut Vec<u8>,
    app: &App,
    change: &Change,
) -> Result<(), AllocError>
    ensures { OnOk result (text.new.items ≡ text.old.items ++ newly_stuck_line app.now change.now) }
{
    if !is_newly_stuck(change) {
        return Ok(());
    }
    let Outcome::Stuck(reason) = change.becomes else {
        return Ok(());
    };
    let track = track_string(alloc, app, &change.clients)?;
    let says = stuck_release(alloc, app, change.release, reason)?;
    push_line(text, "stuck  ", track.as_str(), says.as_str())
}

// Adds the line of a changed release that isn't newly stuck.
fn push_offer(
    alloc: Global,
    text: &mut Vec<u8>,
    app: &App,
    change: &Change,
) -> Result<(), AllocError>
    ensures { OnOk result (text.new.items ≡ text.old.items ++ offer_line app.now change.now) }
{
    if is_newly_stuck(change) {
        return Ok(());
    }
    let track = track_string(alloc, app, &change.clients)?;
    let facts = change_facts(alloc, app, change)?;
    push_line(text, change_word(change), track.as_str(), facts.as_str())
}

// Adds the line of new clients who are cut off.
fn push_cut_off(
    alloc: Global,
    text: &mut Vec<u8>,
    app: &App,
    clients: &Clients,
) -> Result<(), AllocError>
    ensures { OnOk result (text.new.items ≡ text.old.items ++ cut_off_line app.now clients.now) }
{
    let track = track_string(alloc, app, clients)?;
    push_line(text, "stuck  ", track.as_str(), "new clients")
}

fn push_newly_stuck_of(
    alloc: Global,
    text: &mut Vec<u8>,
    catalogue: &Catalogue,
    change: &Change,
) -> Result<(), AllocError>
    ensures { OnOk result (text.new.items ≡ text.old.items ++ line_by newly_stuck_line catalogue.now change.now) }
{
    match find_app(catalogue, change.clients.app) {
        Some(app) => push_newly_stuck(alloc, text, app, change),
        None => Ok(()),
    }
}

fn push_offer_of(
    alloc: Global,
    text: &mut Vec<u8>,
    catalogue: &Catalogue,
    change: &Change,
) -> Result<(), AllocError>
    ensures { OnOk result (text.new.items ≡ text.old.items ++ line_by offer_line catalogue.now change.now) }
{
    match find_app(catalogue, change.clients.app) {
        Some(app) => push_offer(alloc, text, app, change),
        None => Ok(()),
    }
}

fn push_cut_off_of(
    alloc: Global,
    text: &mut Vec<u8>,
    catalogue: &Catalogue,
    clients: &Clients,
) -> Result<(), AllocError>
    ensures { OnOk result (text.new.items ≡ text.old.items ++ line_for cut_off_line catalogue.now clients.now) }
{
    match find_app(catalogue, clients.app) {
        Some(app) => push_cut_off(alloc, text, app, clients),
        None => Ok(()),
    }
}

fn push_all_newly_stuck(
    alloc: Global,
    text: &mut Vec<u8>,
    catalogue: &Catalogue,
    changes: &[Change],
) -> Result<(), AllocError>
    ensures { OnOk result (text.new.items ≡ text.old.items ++ newly_stuck_lines catalogue.now changes.now) }
{
    for change in changes {
        push_newly_stuck_of(alloc, text, catalogue, change)?;
    }
    Ok(())
}

fn push_all_cut_off(
    alloc: Global,
    text: &mut Vec<u8>,
    catalogue: &Catalogue,
    cut_off: &[Clients],
) -> Result<(), AllocError>
    ensures { OnOk result (text.new.items ≡ text.old.items ++ cut_off_lines catalogue.now cut_off.now) }
{
    for clients in cut_off {
        push_cut_off_of(alloc, text, catalogue, clients)?;
    }
    Ok(())
}

fn push_all_offers(
    alloc: Global,
    text: &mut Vec<u8>,
    catalogue: &Catalogue,
    changes: &[Change],
) -> Result<(), AllocError>
    ensures { OnOk result (text.new.items ≡ text.old.items ++ offer_lines catalogue.now changes.now) }
{
    for change in changes {
        push_offer_of(alloc, text, catalogue, change)?;
    }
    Ok(())
}

fn change_counts(
    alloc: Global,
    reviews: &[TrackReview],
    changes: &[Change],
    cut_off: &[Clients],
) -> Result<String, AllocError>
    ensures { IfOk result (λ counts. string_bytes counts ≡ change_counts reviews.now changes.now cut_off.now) }
{
    let totals = totals_string(alloc, reviews)?;
    let named = totals.as_str();
    let changed = changes.len();
    let stuck = newly_stuck_total(changes, cut_off);
    format!(in alloc; "{named}, {changed} changed, {stuck} newly stuck\n")
}

// rule: Printed change
/// Writes the review of a change, by the catalogue after it.
///
/// Each newly stuck release has a line, then the new clients of each track who are cut off, then each other changed
/// release, with the bytes before and after. The last line counts tracks, releases, changed ones and newly stuck ones,
/// with the new clients. Out of memory is the only error.
pub fn write_changes(
    alloc: Global,
    after: &Reviewed<'_>,
    changes: &[Change],
    cut_off: &[Clients],
) -> Result<Vec<u8>, AllocError>
    ensures { IfOk result (λ text. text.items ≡ change_string after.now.catalogue.now after.now.tracks.now changes.now cut_off.now) }
{
    let counts = change_counts(alloc, after.tracks, changes, cut_off)?;
    let mut text = Vec::new(alloc);
    push_all_newly_stuck(alloc, &mut text, after.catalogue, changes)?;
    push_all_cut_off(alloc, &mut text, after.catalogue, cut_off)?;
    push_all_offers(alloc, &mut text, after.catalogue, changes)?;
    text.extend_from_slice(counts.as_str().as_bytes())?;
    Ok(text)
}
