//! The reviews of the tracks of a catalogue after a change.

ghost use Rattle.std.specs.Prelude.{◌≡◌, ◌∷◌, ◌++◌, [], true, All, IfOk, IfSome, OnOk, Some, slice_get};
ghost use Rattle.cohorts.specs.declared.pin.Pin.TheVariants as pin;
ghost use Rattle.payload_graph.specs.Net.{net_among};
ghost use Rattle.par_tables.specs.Tables.{AreTables};
ghost use Rattle.reviews.specs.Copies.{AreKept, HasSource, HaveSources};
ghost use Rattle.reviews.specs.Reviews.{AreReviews, IsTrackReviewAmong};
ghost use Rattle.reviews.specs.Routes.{flag_at};

use crate::review::{TrackReview, review_table};
use crate::roads::flag_at;
use catalogue::Catalogue;
use payload_graph::TrackKey;
use price_cert::Certified;
use std::alloc::{AllocError, Global};

/// The reviews of a catalogue's tracks.
#[derive(Drop)]
pub struct Reviewed<'a> {
    /// The catalogue.
    pub catalogue: &'a Catalogue,
    /// The reviews of its tracks.
    pub tracks: &'a [TrackReview],
}

/// The reviews of a catalogue's tracks after a change.
pub struct LaterReviews {
    /// The reviews, in the order of the tables.
    pub tracks: Vec<TrackReview>,
    /// For each review the index of the one before the change that it is a copy of, `None` if it was made anew.
    pub sources: Vec<Option<usize>>,
}

// Written out, so that no caller proves again how each part is dropped.
impl Drop for LaterReviews {
    fn drop(self) {
        let LaterReviews {
            tracks: _,
            sources: _,
        } = self;
    }
}

// The review of a track after a change, and its source.
#[derive(Drop)]
struct LaterReview {
    review: TrackReview,
    source: Option<usize>,
}

// A copy, which has its lists in common with the review.
fn copy_of(review: &TrackReview) -> Result<TrackReview, AllocError>
    ensures { IfOk result (λ copy. copy ≡ review.now) }
{
    let outcomes = review.outcomes.clone()?;
    let steps = review.steps.clone()?;
    Ok(TrackReview {
        key: review.key,
        target: review.target,
        outcomes,
        steps,
        largest: review.largest,
        longest: review.longest,
        newcomers: review.newcomers,
    })
}

fn is_of(review: &TrackReview, key: &TrackKey) -> bool
    ensures { result ≡ true → review.now.key ≡ key.now }
{
    review.key == *key
}

// The review of a track with its index, by going through all.
fn find_among<'a>(reviews: &'a [TrackReview], key: &TrackKey) -> Option<(usize, &'a TrackReview)>
    ensures { IfSome result (λ found. (slice_get reviews.now found.0 ≡ Some found.1.now) × (found.1.now.key ≡ key.now)) }
{
    for (index, review) in reviews.iter().enumerate() {
        if is_of(review, key) {
            return Some((index, review));
        }
    }
    None
}

// The review of a track with its index, which is mostly the first one to be looked at.
fn find_review<'a>(
    reviews: &'a [TrackReview],
    first: usize,
    key: &TrackKey,
) -> Option<(usize, &'a TrackReview)>
    ensures { IfSome result (λ found. (slice_get reviews.now found.0 ≡ Some found.1.now) × (found.1.now.key ≡ key.now)) }
{
    match reviews.get(first) {
        Some(review) if is_of(review, key) => Some((first, review)),
        _ => find_among(reviews, key),
    }
}

// The same if a change keeps the track's app.
fn find_kept<'a>(
    reviews: &'a [TrackReview],
    kept: &[bool],
    first: usize,
    key: &TrackKey,
) -> Option<(usize, &'a TrackReview)>
    ensures found { IfSome result (λ found. (slice_get reviews.now found.0 ≡ Some found.1.now) × (found.1.now.key ≡ key.now)) }
    ensures kept { IfSome result (λ found. flag_at kept.now key.now.app ≡ true) }
{
    if flag_at(kept, key.app) {
        find_review(reviews, first, key)
    } else {
        None
    }
}

// The review of a track after a change: a copy if the change keeps its app.
fn review_again(
    alloc: Global,
    before: &Reviewed<'_>,
    kept: &[bool],
    first: usize,
    catalogue: &Catalogue,
    table: &Certified,
) -> Result<LaterReview, AllocError>
    requires table { net_among catalogue.now table.now.net.key ≡ Some table.now.net }
    requires pin { table.now.net.key.pin ≡ pin.Any }
    requires kept { AreKept before.now.catalogue.now catalogue.now kept.now }
    requires reviews { All (IsTrackReviewAmong before.now.catalogue.now) before.now.tracks.now }
    ensures key { IfOk result (λ made. made.review.key ≡ table.now.net.key) }
    ensures review { IfOk result (λ made. IsTrackReviewAmong catalogue.now made.review) }
    ensures source { IfOk result (λ made. HasSource before.now.catalogue.now catalogue.now before.now.tracks.now made.review made.source) }
{
    let key = table.key();
    match find_kept(before.tracks, kept, first, &key) {
        Some((from, old)) => Ok(LaterReview {
            review: copy_of(old)?,
            source: Some(from),
        }),
        None => Ok(LaterReview {
            review: review_table(alloc, catalogue, table)?,
            source: None,
        }),
    }
}

fn push_review(later: &mut LaterReviews, made: LaterReview) -> Result<(), AllocError>
    ensures tracks { OnOk result (later.new.tracks.items ≡ later.old.tracks.items ++ made.review ∷ []) }
    ensures sources { OnOk result (later.new.sources.items ≡ later.old.sources.items ++ made.source ∷ []) }
{
    let LaterReview { review, source } = made;
    later.tracks.push(review)?;
    later.sources.push(source)?;
    Ok(())
}

// rule: Review of a catalogue
/// Reviews each track of a catalogue that has a target, in the order of its tables, after a change of a reviewed one.
///
/// `kept` flags apps, by their index in the order of addition, that the change leaves as they are; the reviews of their
/// tracks are copies, which share their lists with those before the change. An app without a flag is reviewed anew. The
/// tables are the catalogue's, as an edition has them. Out of memory is the only error.
pub fn review_later(
    alloc: Global,
    before: &Reviewed<'_>,
    kept: &[bool],
    catalogue: &Catalogue,
    tables: &[Certified],
) -> Result<LaterReviews, AllocError>
    requires tables { AreTables catalogue.now tables.now }
    requires kept { AreKept before.now.catalogue.now catalogue.now kept.now }
    requires reviews { AreReviews before.now.catalogue.now before.now.tracks.now }
    ensures reviews { IfOk result (λ later. AreReviews catalogue.now later.tracks.items) }
    ensures sources { IfOk result (λ later. HaveSources before.now.catalogue.now catalogue.now before.now.tracks.now later.tracks.items later.sources.items) }
{
    par_tables::laws::tracks();
    let mut later = LaterReviews {
        tracks: Vec::new(alloc),
        sources: Vec::new(alloc),
    };
    for (index, table) in tables.iter().enumerate() {
        let made = review_again(alloc, before, kept, index, catalogue, table)?;
        push_review(&mut later, made)?;
    }
    Ok(later)
}
