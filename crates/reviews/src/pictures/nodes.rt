//! The releases and the targets of a picture.

ghost use Rattle.std.specs.Prelude.{◌≡◌, IfOk, filter_map, map};
ghost use Rattle.std.specs.List.{enumerate_from};
ghost use Rattle.reviews.specs.Scenes.{aims_at, goal_of, goals_of, has_stuck, is_goal, is_stuck_at, is_stuck_on, node_of, nodes_of};

use crate::outcome::is_stuck;
use crate::pictures::view::{View, is_shown};
use crate::review::TrackReview;
use catalogue::{App, Release};
use cohorts::Lane;
use std::alloc::{AllocError, Global};

/// A release as it is drawn.
#[derive(Clone, Copy)]
pub struct Node {
    /// Its index, by ascending version.
    pub release: usize,
    /// Whether no package may jump it.
    pub stone: bool,
    /// Whether it is withdrawn.
    pub withdrawn: bool,
    /// Whether it is the target of a track that is drawn.
    pub goal: bool,
    /// Whether clients of a track that is drawn are stuck at it.
    pub stuck: bool,
}

/// A target of a cohort.
#[derive(Clone, Copy)]
pub struct Goal {
    /// The index of the release, by ascending version.
    pub release: usize,
    /// The index of the cohort, in the app's cohorts.
    pub cohort: usize,
    /// The lane whose clients are meant to have it.
    pub lane: Lane,
}

fn aims_at(view: &View, release: usize, review: &TrackReview) -> bool
    ensures { result ≡ aims_at view.now release review.now }
{
    is_shown(view, review) && review.target == release
}

fn is_stuck_at(review: &TrackReview, release: usize) -> bool
    ensures { result ≡ is_stuck_at review.now release }
{
    match review.outcomes.as_slice().get(release) {
        Some(outcome) => is_stuck(outcome),
        None => false,
    }
}

fn is_stuck_on(view: &View, release: usize, review: &TrackReview) -> bool
    ensures { result ≡ is_stuck_on view.now release review.now }
{
    is_shown(view, review) && is_stuck_at(review, release)
}

fn is_goal(view: &View, reviews: &[TrackReview], release: usize) -> bool
    ensures { result ≡ is_goal view.now reviews.now release }
{
    reviews.iter().any(|review| aims_at(view, release, review))
}

fn has_stuck(view: &View, reviews: &[TrackReview], release: usize) -> bool
    ensures { result ≡ has_stuck view.now reviews.now release }
{
    reviews
        .iter()
        .any(|review| is_stuck_on(view, release, review))
}

// rule: Release of a picture
fn node_of(view: &View, reviews: &[TrackReview], release: usize, there: &Release) -> Node
    ensures { result ≡ node_of view.now reviews.now release there.now }
{
    Node {
        release,
        stone: there.stone,
        withdrawn: there.withdrawn,
        goal: is_goal(view, reviews, release),
        stuck: has_stuck(view, reviews, release),
    }
}

/// The releases of an app, by ascending version.
pub(crate) fn nodes_of(
    alloc: Global,
    app: &App,
    view: &View,
    reviews: &[TrackReview],
) -> Result<Vec<Node>, AllocError>
    ensures { IfOk result (λ nodes. nodes.items ≡ nodes_of app.now view.now reviews.now) }
{
    app.releases
        .as_slice()
        .iter()
        .enumerate()
        .map(|(release, there)| node_of(view, reviews, release, there))
        .collect(alloc)
}

// rule: Target of a picture
// The target of a track that is drawn. Clients that allow a downgrade have the same target as the others.
fn goal_of(view: &View, review: &TrackReview) -> Option<Goal>
    ensures { result ≡ goal_of view.now review.now }
{
    if is_shown(view, review) && !review.key.rollback {
        Some(Goal {
            release: review.target,
            cohort: review.key.cohort,
            lane: review.key.lane,
        })
    } else {
        None
    }
}

/// The targets of the tracks that are drawn, in the order of the reviews.
pub(crate) fn goals_of(
    alloc: Global,
    view: &View,
    reviews: &[TrackReview],
) -> Result<Vec<Goal>, AllocError>
    ensures { IfOk result (λ goals. goals.items ≡ goals_of view.now reviews.now) }
{
    reviews
        .iter()
        .filter_map(|review| goal_of(view, review))
        .collect(alloc)
}
