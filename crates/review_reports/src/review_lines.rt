//! How the review of a catalogue is printed.

ghost use Rattle.std.specs.Prelude.{◌≡◌, ◌++◌, ◌-◌, IfOk, OnOk, length, string_bytes};
ghost use Rattle.review_reports.specs.ReviewLines.{all_lines, bytes_from, chain_lines, chain_string, clients_on, more_line, named_lines, newcomers_string, review_counts, review_string, steps_from, stuck_lines, stuck_part, track_facts, track_lines};

use crate::change::Clients;
use crate::line::{find_app, push_line, stuck_release, track_string};
use crate::stuck::{StuckRelease, count_stuck, first_of, stuck_of, stuck_total, totals_string};
use catalogue::{App, Catalogue};
use payload_graph::TrackKey;
use quotes::Quote;
use reviews::{Largest, Outcome, TrackReview, spelled_at};
use std::alloc::{AllocError, Global};

/// The clients of a track.
pub(crate) fn clients_on(key: &TrackKey) -> Clients
    ensures { result ≡ clients_on key.now }
{
    Clients {
        app: key.app,
        cohort: key.cohort,
        lane: key.lane,
        rollback: key.rollback,
    }
}

fn track_facts(alloc: Global, app: &App, review: &TrackReview) -> Result<String, AllocError>
    ensures { IfOk result (λ facts. string_bytes facts ≡ track_facts app.now review.now) }
{
    let target = spelled_at(app, review.target);
    let releases = review.outcomes.len();
    let stuck = count_stuck(review.outcomes.as_slice());
    format!(in alloc; "target {target}, {releases} releases, {stuck} stuck")
}

// Adds a line for each of some stuck releases.
fn push_stuck(
    alloc: Global,
    text: &mut Vec<u8>,
    app: &App,
    track: &str,
    stuck: &[StuckRelease],
) -> Result<(), AllocError>
    ensures { OnOk result (text.new.items ≡ text.old.items ++ stuck_lines app.now track.now stuck.now) }
{
    for one in stuck {
        let says = stuck_release(alloc, app, one.release, one.reason)?;
        push_line(text, "stuck  ", track, says.as_str())?;
    }
    Ok(())
}

// Adds the line that counts stuck releases without a line, if there are any.
fn push_more(alloc: Global, text: &mut Vec<u8>, track: &str, more: usize) -> Result<(), AllocError>
    ensures { OnOk result (text.new.items ≡ text.old.items ++ more_line track.now more) }
{
    if more == 0 {
        return Ok(());
    }
    let says = format!(in alloc; "{more} more")?;
    push_line(text, "stuck  ", track, says.as_str())
}

// Adds the lines of the first stuck releases, and the number of the others.
fn push_stuck_part(
    alloc: Global,
    text: &mut Vec<u8>,
    app: &App,
    track: &str,
    limit: usize,
    stuck: &[StuckRelease],
) -> Result<(), AllocError>
    ensures { OnOk result (text.new.items ≡ text.old.items ++ stuck_part app.now track.now limit stuck.now) }
{
    push_stuck(alloc, text, app, track, first_of(stuck, limit))?;
    push_more(alloc, text, track, stuck.len().saturating_sub(limit))
}

/// The steps of the release at an index of a track, 0 if it has none.
pub(crate) fn steps_from(review: &TrackReview, release: usize) -> u64
    ensures { result ≡ steps_from review.now release }
{
    match review.steps.as_slice().get(release) {
        Some(Some(steps)) => *steps,
        _ => 0,
    }
}

/// Its bytes up to the target, 0 if it has none.
pub(crate) fn bytes_from(review: &TrackReview, release: usize) -> u64
    ensures { result ≡ bytes_from review.now release }
{
    match review.outcomes.as_slice().get(release) {
        Some(Outcome::Next { sum, .. }) => *sum,
        _ => 0,
    }
}

// rule: Printed chain
fn chain_string(
    alloc: Global,
    app: &App,
    review: &TrackReview,
    largest: Option<Largest>,
) -> Result<String, AllocError>
    ensures { IfOk result (λ says. string_bytes says ≡ chain_string app.now review.now largest) }
{
    match largest {
        None => format!(in alloc; "none"),
        Some(best) => {
            let from = spelled_at(app, best.from);
            let steps = steps_from(review, best.from);
            let bytes = bytes_from(review, best.from);
            format!(in alloc; "{from}, {steps} steps, {bytes} bytes")
        }
    }
}

fn newcomers_string(alloc: Global, newcomers: Quote) -> Result<String, AllocError>
    ensures { IfOk result (λ says. string_bytes says ≡ newcomers_string newcomers) }
{
    match newcomers {
        Quote::Here => format!(in alloc; "0 bytes"),
        Quote::Next { sum, .. } => format!(in alloc; "{sum} bytes"),
        Quote::NoChain => format!(in alloc; "stuck"),
    }
}

// Adds the lines of a track's largest and longest chains, and of clients outside of all releases.
fn push_chains(
    alloc: Global,
    text: &mut Vec<u8>,
    app: &App,
    track: &str,
    review: &TrackReview,
) -> Result<(), AllocError>
    ensures { OnOk result (text.new.items ≡ text.old.items ++ chain_lines app.now track.now review.now) }
{
    let largest = chain_string(alloc, app, review, review.largest)?;
    push_line(text, "largest", track, largest.as_str())?;
    let longest = chain_string(alloc, app, review, review.longest)?;
    push_line(text, "longest", track, longest.as_str())?;
    let newcomers = newcomers_string(alloc, review.newcomers)?;
    push_line(text, "new    ", track, newcomers.as_str())
}

// rule: Lines of a track
// Adds the lines of a track of that name.
fn push_named(
    alloc: Global,
    text: &mut Vec<u8>,
    app: &App,
    track: &str,
    limit: usize,
    review: &TrackReview,
) -> Result<(), AllocError>
    ensures { OnOk result (text.new.items ≡ text.old.items ++ named_lines app.now track.now limit review.now) }
{
    let facts = track_facts(alloc, app, review)?;
    let stuck = stuck_of(alloc, review.outcomes.as_slice())?;
    push_line(text, "track  ", track, facts.as_str())?;
    push_stuck_part(alloc, text, app, track, limit, stuck.as_slice())?;
    push_chains(alloc, text, app, track, review)
}

// Adds the lines of a track, and none if its app isn't there.
fn push_track(
    alloc: Global,
    text: &mut Vec<u8>,
    catalogue: &Catalogue,
    limit: usize,
    review: &TrackReview,
) -> Result<(), AllocError>
    ensures { OnOk result (text.new.items ≡ text.old.items ++ track_lines catalogue.now limit review.now) }
{
    let Some(app) = find_app(catalogue, review.key.app) else {
        return Ok(());
    };
    let track = track_string(alloc, app, &clients_on(&review.key))?;
    push_named(alloc, text, app, track.as_str(), limit, review)
}

fn review_counts(alloc: Global, reviews: &[TrackReview]) -> Result<String, AllocError>
    ensures { IfOk result (λ counts. string_bytes counts ≡ review_counts reviews.now) }
{
    let totals = totals_string(alloc, reviews)?;
    let named = totals.as_str();
    let stuck = stuck_total(reviews);
    format!(in alloc; "{named}, {stuck} stuck\n")
}

fn push_tracks(
    alloc: Global,
    text: &mut Vec<u8>,
    catalogue: &Catalogue,
    limit: usize,
    reviews: &[TrackReview],
) -> Result<(), AllocError>
    ensures { OnOk result (text.new.items ≡ text.old.items ++ all_lines catalogue.now limit reviews.now) }
{
    for review in reviews {
        push_track(alloc, text, catalogue, limit, review)?;
    }
    Ok(())
}

// rule: Printed review
/// Writes the review of a catalogue, with at most `limit` stuck releases for each track.
///
/// Each track has a line with its target, a line for each stuck release, one that counts those without a line, one for
/// the largest chain, one for the longest and one for clients outside of all releases. The last line counts tracks,
/// releases and stuck releases. Out of memory is the only error.
pub fn write_review(
    alloc: Global,
    catalogue: &Catalogue,
    limit: usize,
    reviews: &[TrackReview],
) -> Result<Vec<u8>, AllocError>
    ensures { IfOk result (λ text. text.items ≡ review_string catalogue.now limit reviews.now) }
{
    let counts = review_counts(alloc, reviews)?;
    let mut text = Vec::new(alloc);
    push_tracks(alloc, &mut text, catalogue, limit, reviews)?;
    text.extend_from_slice(counts.as_str().as_bytes())?;
    Ok(text)
}
