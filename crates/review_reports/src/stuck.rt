//! The stuck releases of a track, and of all tracks.

ghost use Rattle.std.specs.Prelude.{◌≡◌, IfOk, filter_map, string_bytes, take};
ghost use Rattle.std.specs.List.{count_by, enumerate_from};
ghost use Rattle.review_reports.specs.ReviewLines.{stuck_at, stuck_of, release_total, stuck_total, totals_string};
ghost use Rattle.reviews.specs.Reviews.{is_stuck};

use reviews::{Outcome, Reason, TrackReview, is_stuck};
use std::alloc::{AllocError, Global};

/// A release of which clients are stuck.
#[derive(Clone, Copy)]
pub(crate) struct StuckRelease {
    /// Its index, by ascending version.
    pub(crate) release: usize,
    /// Why they are stuck.
    pub(crate) reason: Reason,
}

fn stuck_at(release: usize, outcome: &Outcome) -> Option<StuckRelease>
    ensures { result ≡ stuck_at release outcome.now }
{
    match outcome {
        Outcome::Stuck(reason) => Some(StuckRelease {
            release,
            reason: *reason,
        }),
        _ => None,
    }
}

/// The stuck releases of a track, by ascending version.
pub(crate) fn stuck_of(alloc: Global, outcomes: &[Outcome]) -> Result<Vec<StuckRelease>, AllocError>
    ensures { IfOk result (λ stuck. stuck.items ≡ stuck_of outcomes.now) }
{
    outcomes
        .iter()
        .enumerate()
        .filter_map(|(release, outcome)| stuck_at(release, outcome))
        .collect(alloc)
}

/// The first ones of stuck releases, at most so many.
pub(crate) fn first_of(stuck: &[StuckRelease], limit: usize) -> &[StuckRelease]
    ensures { result.now ≡ take limit stuck.now }
{
    if limit < stuck.len() {
        &stuck[..limit]
    } else {
        stuck
    }
}

/// How many releases of a track are stuck.
pub(crate) fn count_stuck(outcomes: &[Outcome]) -> usize
    ensures { result ≡ count_by is_stuck outcomes.now }
{
    outcomes.iter().filter(|outcome| is_stuck(outcome)).count()
}

/// How many releases all tracks have, one for each track that it is on.
pub(crate) fn release_total(reviews: &[TrackReview]) -> u128
    ensures { result ≡ release_total reviews.now }
{
    let mut total: u128 = 0;
    for review in reviews {
        total += review.outcomes.len() as u128;
    }
    total
}

/// Says how many tracks there are, and how many releases they have.
pub(crate) fn totals_string(alloc: Global, reviews: &[TrackReview]) -> Result<String, AllocError>
    ensures { IfOk result (λ totals. string_bytes totals ≡ totals_string reviews.now) }
{
    let tracks = reviews.len();
    let releases = release_total(reviews);
    format!(in alloc; "total   {tracks} tracks, {releases} releases")
}

// rule: Number of stuck releases
/// Counts the stuck releases of all tracks.
pub fn stuck_total(reviews: &[TrackReview]) -> u128
    ensures { result ≡ stuck_total reviews.now }
{
    let mut total: u128 = 0;
    for review in reviews {
        total += count_stuck(review.outcomes.as_slice()) as u128;
    }
    total
}
