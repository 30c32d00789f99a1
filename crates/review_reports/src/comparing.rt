//! The changes of all tracks of a catalogue.

ghost use Rattle.std.specs.Prelude.{◌≡◌, ◌++◌, true, IfOk, None, OnOk, Some, slice_get, slice_index_or};
ghost use Rattle.review_reports.specs.Changes.{changes_of, changes_of_pair, changes_on, changes_to};
ghost use Rattle.reviews.specs.Copies.{HasSource, HaveSources};

use crate::change::{Change, are_same_clients, had_target, push_arrivals_of, push_pair};
use catalogue::Catalogue;
use reviews::{Reviewed, TrackReview};
use std::alloc::{AllocError, Global};

fn source_at(sources: &[Option<usize>], index: usize) -> Option<usize>
    ensures { result ≡ slice_index_or sources.now index None }
{
    match sources.get(index) {
        Some(source) => *source,
        None => None,
    }
}

fn is_source(source: Option<usize>, index: usize) -> bool
    ensures { result ≡ true → source ≡ Some index }
{
    match source {
        Some(from) => from == index,
        None => false,
    }
}

// rule: Review of a change
// Adds the changes of the clients of the track at an index before and of one after the change. A copy has none.
fn push_from(
    changes: &mut Vec<Change>,
    before: &Reviewed<'_>,
    after: &Catalogue,
    from: usize,
    old: &TrackReview,
    new: &TrackReview,
    source: Option<usize>,
) -> Result<(), AllocError>
    requires there { slice_get before.now.tracks.now from ≡ Some old.now }
    requires source { HasSource before.now.catalogue.now after.now before.now.tracks.now new.now source }
    ensures { OnOk result (changes.new.items ≡ changes.old.items ++ changes_of_pair before.now.catalogue.now after.now old.now new.now) }
{
    catalogue::version_laws::order();
    before.catalogue.validity();
    if is_source(source, from) {
        return Ok(());
    }
    push_pair(changes, before.catalogue, after, old, new)
}

// Adds the changes of the clients of the tracks before that are on a track after the change.
fn push_track(
    changes: &mut Vec<Change>,
    before: &Reviewed<'_>,
    after: &Reviewed<'_>,
    new: &TrackReview,
    source: Option<usize>,
) -> Result<(), AllocError>
    requires { HasSource before.now.catalogue.now after.now.catalogue.now before.now.tracks.now new.now source }
    ensures { OnOk result (changes.new.items ≡ changes.old.items ++ changes_to before.now.catalogue.now after.now.catalogue.now before.now.tracks.now after.now.tracks.now new.now) }
{
    for (from, old) in before.tracks.iter().enumerate() {
        if are_same_clients(before.tracks, after.tracks, old, new) {
            push_from(changes, before, after.catalogue, from, old, new, source)?;
        }
    }
    Ok(())
}

// Adds the changes of the clients of a track after the change.
fn push_changes_on(
    changes: &mut Vec<Change>,
    before: &Reviewed<'_>,
    after: &Reviewed<'_>,
    new: &TrackReview,
    source: Option<usize>,
) -> Result<(), AllocError>
    requires { HasSource before.now.catalogue.now after.now.catalogue.now before.now.tracks.now new.now source }
    ensures { OnOk result (changes.new.items ≡ changes.old.items ++ changes_on before.now.catalogue.now after.now.catalogue.now before.now.tracks.now after.now.tracks.now new.now) }
{
    if had_target(before, &new.key) {
        push_track(changes, before, after, new, source)
    } else {
        push_arrivals_of(changes, before.catalogue, after.catalogue, new)
    }
}

// rule: Review of a change
/// The changes from the reviews of a catalogue to those of a later one, by the tracks of the later one.
///
/// `sources` has for a review after the change the index of the one before it that it is a copy of, as `LaterReviews`
/// has them; a copy isn't compared with its source. Without a source each review is compared. Out of memory is the
/// only error.
pub fn changes(
    alloc: Global,
    before: &Reviewed<'_>,
    after: &Reviewed<'_>,
    sources: &[Option<usize>],
) -> Result<Vec<Change>, AllocError>
    requires { HaveSources before.now.catalogue.now after.now.catalogue.now before.now.tracks.now after.now.tracks.now sources.now }
    ensures { IfOk result (λ changes. changes.items ≡ changes_of before.now.catalogue.now after.now.catalogue.now before.now.tracks.now after.now.tracks.now) }
{
    let mut changes = Vec::new(alloc);
    for (index, new) in after.tracks.iter().enumerate() {
        let source = source_at(sources, index);
        push_changes_on(&mut changes, before, after, new, source)?;
    }
    Ok(changes)
}
