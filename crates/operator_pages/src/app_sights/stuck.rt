//! The stuck clients of an app.

ghost use Rattle.std.specs.Prelude.{◌≡◌, ◌++◌, IfOk, OnOk, filter_map, map, take};
ghost use Rattle.std.specs.List.{enumerate_from};
ghost use Rattle.operator_pages.specs.Clients.{list_of, said_of, stuck_at, stuck_if, stuck_in, stuck_on};

use crate::app_sights::clients::said_of;
use crate::sights::{StuckClients, StuckList};
use catalogue::App;
use payload_graph::TrackKey;
use reviews::{Outcome, Reason, TrackReview};
use std::alloc::{AllocError, Global};
use values::Items;

/// How many stuck clients are named.
const MAX_NAMED: usize = 20;

/// The clients of a track who are stuck at a release.
#[derive(Clone, Copy)]
pub(crate) struct StuckAt {
    /// The key of their track.
    pub(crate) key: TrackKey,
    /// The index of the release, by ascending version.
    pub(crate) release: usize,
    /// Why they are stuck.
    pub(crate) reason: Reason,
}

fn stuck_at(key: &TrackKey, release: usize, outcome: &Outcome) -> Option<StuckAt>
    ensures { result ≡ stuck_at key.now release outcome.now }
{
    match outcome {
        Outcome::Stuck(reason) => Some(StuckAt {
            key: *key,
            release,
            reason: *reason,
        }),
        _ => None,
    }
}

// The stuck clients of a track, by ascending version.
fn stuck_on(alloc: Global, review: &TrackReview) -> Result<Vec<StuckAt>, AllocError>
    ensures { IfOk result (λ stuck. stuck.items ≡ stuck_on review.now) }
{
    review
        .outcomes
        .as_slice()
        .iter()
        .enumerate()
        .filter_map(|(release, outcome)| stuck_at(&review.key, release, outcome))
        .collect(alloc)
}

// Adds the stuck clients of a track, if it is one of the app's.
fn push_stuck(
    alloc: Global,
    stuck: &mut Vec<StuckAt>,
    app: usize,
    review: &TrackReview,
) -> Result<(), AllocError>
    ensures { OnOk result (stuck.new.items ≡ stuck.old.items ++ stuck_if app review.now) }
{
    if review.key.app != app {
        return Ok(());
    }
    let more = stuck_on(alloc, review)?;
    stuck.extend_from_slice(more.as_slice())
}

// rule: Stuck clients of an app
fn stuck_in(alloc: Global, app: usize, reviews: &[TrackReview]) -> Result<Vec<StuckAt>, AllocError>
    ensures { IfOk result (λ stuck. stuck.items ≡ stuck_in app reviews.now) }
{
    let mut stuck = Vec::new(alloc);
    for review in reviews {
        push_stuck(alloc, &mut stuck, app, review)?;
    }
    Ok(stuck)
}

// How stuck clients are shown.
fn all_said(alloc: Global, app: &App, stuck: &[StuckAt]) -> Result<Vec<StuckClients>, AllocError>
    ensures { IfOk result (λ said. said.items ≡ map (said_of app.now) stuck.now) }
{
    let mut said = Vec::new(alloc);
    for one in stuck {
        let words = said_of(alloc, app, one)?;
        said.push(words)?;
    }
    Ok(said)
}

// The first ones, at most so many as are named.
fn first_of(stuck: &[StuckAt]) -> &[StuckAt]
    ensures { result.now ≡ take 20 stuck.now }
{
    if MAX_NAMED < stuck.len() {
        &stuck[..MAX_NAMED]
    } else {
        stuck
    }
}

fn list_of(alloc: Global, app: &App, stuck: &[StuckAt]) -> Result<StuckList, AllocError>
    ensures { IfOk result (λ list. list ≡ list_of app.now stuck.now) }
{
    let first = all_said(alloc, app, first_of(stuck))?;
    Ok(StuckList {
        first: Items::new(first),
        others: stuck.len().saturating_sub(MAX_NAMED),
    })
}

/// The stuck clients of the app at an index, by the reviews of the catalogue's tracks.
pub(crate) fn stuck_list(
    alloc: Global,
    reviews: &[TrackReview],
    index: usize,
    app: &App,
) -> Result<StuckList, AllocError>
    ensures { IfOk result (λ list. list ≡ list_of app.now (stuck_in index reviews.now)) }
{
    let stuck = stuck_in(alloc, index, reviews)?;
    list_of(alloc, app, stuck.as_slice())
}
