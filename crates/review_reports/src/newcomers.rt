//! New clients, outside of all releases, whom a change cuts off.

ghost use Rattle.std.specs.Prelude.{◌≡◌, ◌++◌, IfOk, OnOk};
ghost use Rattle.std.specs.List.{flat_map};
ghost use Rattle.review_reports.specs.Newcomers.{cut_off_between, cut_off_from, cut_off_of, cut_off_on};

use crate::change::{Clients, are_same_clients, clients_of, had_target};
use crate::warnings::has_no_chain;
use reviews::{Reviewed, TrackReview};
use std::alloc::{AllocError, Global};

// Adds the new clients of a track before a change and of one after it, if they are the same clients and had a chain.
fn push_between(
    cut_off: &mut Vec<Clients>,
    before: &[TrackReview],
    after: &[TrackReview],
    new: &TrackReview,
    old: &TrackReview,
) -> Result<(), AllocError>
    ensures { OnOk result (cut_off.new.items ≡ cut_off.old.items ++ cut_off_between before.now after.now new.now old.now) }
{
    if are_same_clients(before, after, old, new) && !has_no_chain(&old.newcomers) {
        cut_off.push(clients_of(&old.key, &new.key))?;
    }
    Ok(())
}

// Adds those of a track without a chain, by the tracks that they were on.
fn push_by_tracks(
    cut_off: &mut Vec<Clients>,
    before: &[TrackReview],
    after: &[TrackReview],
    new: &TrackReview,
) -> Result<(), AllocError>
    ensures { OnOk result (cut_off.new.items ≡ cut_off.old.items ++ flat_map (cut_off_between before.now after.now new.now) before.now) }
{
    for review in before {
        push_between(cut_off, before, after, new, review)?;
    }
    Ok(())
}

// Adds those of a track without a chain, all of them if they had no target before.
fn push_from(
    cut_off: &mut Vec<Clients>,
    before: &Reviewed<'_>,
    after: &[TrackReview],
    new: &TrackReview,
) -> Result<(), AllocError>
    ensures { OnOk result (cut_off.new.items ≡ cut_off.old.items ++ cut_off_from before.now.catalogue.now before.now.tracks.now after.now new.now) }
{
    if had_target(before, &new.key) {
        return push_by_tracks(cut_off, before.tracks, after, new);
    }
    cut_off.push(clients_of(&new.key, &new.key))?;
    Ok(())
}

// Adds those of a track after a change, none if it has a chain for them.
fn push_on(
    cut_off: &mut Vec<Clients>,
    before: &Reviewed<'_>,
    after: &[TrackReview],
    new: &TrackReview,
) -> Result<(), AllocError>
    ensures { OnOk result (cut_off.new.items ≡ cut_off.old.items ++ cut_off_on before.now.catalogue.now before.now.tracks.now after.now new.now) }
{
    if has_no_chain(&new.newcomers) {
        push_from(cut_off, before, after, new)
    } else {
        Ok(())
    }
}

// rule: New clients cut off
/// The new clients, outside of all releases, whom a change cuts off, by the tracks after it in their order.
///
/// They have no chain to their target after the change, and had one before it, or no target. Out of memory is the only
/// error.
pub fn cut_off_newcomers(
    alloc: Global,
    before: &Reviewed<'_>,
    after: &[TrackReview],
) -> Result<Vec<Clients>, AllocError>
    ensures { IfOk result (λ cut_off. cut_off.items ≡ cut_off_of before.now.catalogue.now before.now.tracks.now after.now) }
{
    let mut cut_off = Vec::new(alloc);
    for review in after {
        push_on(&mut cut_off, before, after, review)?;
    }
    Ok(cut_off)
}
