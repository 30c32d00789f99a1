//! The packages of a picture.

ghost use Rattle.std.specs.Prelude.{◌≡◌, ◌++◌, IfOk, OnOk, fold, true};
ghost use Rattle.std.specs.List.{list_any};
ghost use Rattle.values.specs.Ordered.{ascend};
ghost use Rattle.catalogue.specs.Validity.{is_release_below};
ghost use Rattle.reviews.specs.Scenes.{all_arrows, arrow_at, arrow_by, arrows_of, arrows_on, chain_of, has_arrow, is_same_arrow, same_kind, with_arrow, with_arrows};

use crate::outcome::Outcome;
use crate::pictures::view::{View, is_shown};
use crate::review::TrackReview;
use crate::steps::release_to;
use catalogue::App;
use payload_graph::Payload;
use std::alloc::{AllocError, Global};

/// A package that leads from one release to another.
#[derive(Clone, Copy)]
pub struct Arrow {
    /// The index of the release that it starts at, by ascending version.
    pub from: usize,
    /// The index of the release that it leads to.
    pub to: usize,
    /// The package.
    pub payload: Payload,
}

fn same_kind(one: Payload, other: Payload) -> bool
    ensures { result ≡ same_kind one other }
{
    match (one, other) {
        (Payload::Full(_), Payload::Full(_)) => true,
        (Payload::Differ(_), Payload::Differ(_)) => true,
        _ => false,
    }
}

fn is_same_arrow(one: &Arrow, other: &Arrow) -> bool
    ensures { result ≡ is_same_arrow one.now other.now }
{
    one.from == other.from && one.to == other.to && same_kind(one.payload, other.payload)
}

fn has_arrow(arrows: &[Arrow], arrow: &Arrow) -> bool
    ensures { result ≡ has_arrow arrows.now arrow.now }
{
    arrows.iter().any(|other| is_same_arrow(arrow, other))
}

// Adds an arrow, unless it is there.
fn push_arrow(arrows: &mut Vec<Arrow>, arrow: &Arrow) -> Result<(), AllocError>
    ensures { OnOk result (arrows.new.items ≡ with_arrow arrows.old.items arrow.now) }
{
    if !has_arrow(arrows.as_slice(), arrow) {
        arrows.push(*arrow)?;
    }
    Ok(())
}

// Adds the arrows that aren't there.
fn push_arrows(arrows: &mut Vec<Arrow>, more: &[Arrow]) -> Result<(), AllocError>
    ensures { OnOk result (arrows.new.items ≡ fold with_arrow arrows.old.items more.now) }
{
    for arrow in more {
        push_arrow(arrows, arrow)?;
    }
    Ok(())
}

fn arrow_by(app: &App, from: usize, outcome: &Outcome) -> Option<Arrow>
    requires { ascend is_release_below app.now.releases ≡ true }
    ensures { result ≡ arrow_by app.now from outcome.now }
{
    match outcome {
        Outcome::Next { payload, .. } => {
            let to = release_to(app, *payload)?;
            Some(Arrow {
                from,
                to,
                payload: *payload,
            })
        }
        _ => None,
    }
}

// rule: Package of a picture
// The first package of the chain from a release, if there is one.
fn arrow_at(app: &App, review: &TrackReview, from: usize) -> Option<Arrow>
    requires { ascend is_release_below app.now.releases ≡ true }
    ensures { result ≡ arrow_at app.now review.now from }
{
    let outcome = review.outcomes.as_slice().get(from)?;
    arrow_by(app, from, outcome)
}

// The first packages of all releases.
fn all_arrows(alloc: Global, app: &App, review: &TrackReview) -> Result<Vec<Arrow>, AllocError>
    requires { ascend is_release_below app.now.releases ≡ true }
    ensures { IfOk result (λ arrows. arrows.items ≡ all_arrows app.now review.now) }
{
    (0..review.outcomes.len())
        .filter_map(|from| arrow_at(app, review, from))
        .collect(alloc)
}

// rule: Chain of a picture
// The packages that follow a release, one after the other.
fn chain_of(
    alloc: Global,
    app: &App,
    review: &TrackReview,
    from: usize,
) -> Result<Vec<Arrow>, AllocError>
    requires { ascend is_release_below app.now.releases ≡ true }
    ensures { IfOk result (λ arrows. arrows.items ≡ chain_of app.now review.now from) }
{
    let mut arrows = Vec::new(alloc);
    let mut at = from;
    for _ in 0..review.outcomes.len() {
        match arrow_at(app, review, at) {
            None => return Ok(arrows),
            Some(arrow) => {
                at = arrow.to;
                arrows.push(arrow)?;
            }
        }
    }
    Ok(arrows)
}

// The packages that are drawn of a track.
fn arrows_on(
    alloc: Global,
    app: &App,
    view: &View,
    review: &TrackReview,
) -> Result<Vec<Arrow>, AllocError>
    requires { ascend is_release_below app.now.releases ≡ true }
    ensures { IfOk result (λ arrows. arrows.items ≡ arrows_on app.now view.now review.now) }
{
    if !is_shown(view, review) {
        return Ok(Vec::new(alloc));
    }
    match view.from {
        Some(from) => chain_of(alloc, app, review, from),
        None => all_arrows(alloc, app, review),
    }
}

// Adds the arrows of a track that aren't there.
fn push_arrows_on(
    alloc: Global,
    app: &App,
    view: &View,
    review: &TrackReview,
    arrows: &mut Vec<Arrow>,
) -> Result<(), AllocError>
    requires { ascend is_release_below app.now.releases ≡ true }
    ensures { OnOk result (arrows.new.items ≡ with_arrows app.now view.now arrows.old.items review.now) }
{
    let more = arrows_on(alloc, app, view, review)?;
    push_arrows(arrows, more.as_slice())
}

// rule: Packages of a picture
/// The packages that are drawn of an app, each once, in the order of the reviews.
pub(crate) fn arrows_of(
    alloc: Global,
    app: &App,
    view: &View,
    reviews: &[TrackReview],
) -> Result<Vec<Arrow>, AllocError>
    requires { ascend is_release_below app.now.releases ≡ true }
    ensures { IfOk result (λ arrows. arrows.items ≡ arrows_of app.now view.now reviews.now) }
{
    let mut arrows = Vec::new(alloc);
    for review in reviews {
        push_arrows_on(alloc, app, view, review, &mut arrows)?;
    }
    Ok(arrows)
}
