//! The tracks of a catalogue that have a target.

ghost use Rattle.std.specs.Prelude.{◌≡◌, ◌+◌, ◌<◌, true, All, IfOk, OnOk, length, take};
ghost use Rattle.std.specs.List.{filter, list_all};
ghost use Rattle.std.specs.Option.{is_some};
ghost use Rattle.catalogue.specs.Validity.{is_valid_cohort};
ghost use Rattle.payload_graph.specs.Net.{net_in};
ghost use Rattle.par_tables.specs.Marks.{is_marked, marked_keys, marked_tracks};
ghost use Rattle.par_tables.specs.Pieces.{has_target, tracks_of, HasTarget};
ghost use Rattle.par_tables.specs.Tracks.{app_keys, joined_from, keys_of};

use crate::keys::cohort_keys;
use catalogue::{App, Catalogue};
use cohorts::track_target;
use payload_graph::TrackKey;
use std::alloc::{AllocError, Global};
use values::Items;

// A target is released, so it isn't looked for among the releases.
fn has_target_in(app: &App, key: &TrackKey) -> bool
    requires { list_all (is_valid_cohort app.now.releases) app.now.cohorts ≡ true }
    ensures { result ≡ is_some (net_in app.now key.now) }
{
    match app.cohorts.as_slice().get(key.cohort) {
        Some(cohort) => {
            track_target(app.releases.as_slice(), cohort, key.lane, &key.pin).is_some()
        }
        None => false,
    }
}

/// Whether a track has a target; a track that isn't there has none.
///
/// Only for clients with a pin it goes along the releases.
pub fn has_target(catalogue: &Catalogue, key: &TrackKey) -> bool
    ensures { result ≡ has_target catalogue.now key.now }
{
    catalogue.validity();
    match catalogue.apps().get(key.app) {
        Some(app) => has_target_in(app, key),
        None => false,
    }
}

// Adds the keys of the next app.
fn push_app(
    keys: &mut Vec<TrackKey>,
    alloc: Global,
    catalogue: &Catalogue,
    app: usize,
) -> Result<(), AllocError>
    requires there { app < length catalogue.now }
    requires so_far { keys.old.items ≡ joined_from app_keys 0 (take app catalogue.now) }
    ensures { OnOk result (keys.new.items ≡ joined_from app_keys 0 (take (app + 1) catalogue.now)) }
{
    let cohorts = catalogue.cohorts(app);
    for index in 0..cohorts.len() {
        let own = cohort_keys(alloc, app, index, &cohorts[index])?;
        keys.extend_from_slice(own.as_slice())?;
    }
    Ok(())
}

// The keys of all tracks, with a target or without.
fn all_keys(alloc: Global, catalogue: &Catalogue) -> Result<Vec<TrackKey>, AllocError>
    ensures { IfOk result (λ keys. keys.items ≡ keys_of catalogue.now) }
{
    let mut keys = Vec::new(alloc);
    for app in 0..catalogue.apps().len() {
        push_app(&mut keys, alloc, catalogue, app)?;
    }
    Ok(keys)
}

// Those of the tracks that have a target.
fn targeted(
    alloc: Global,
    catalogue: &Catalogue,
    listed: &[TrackKey],
) -> Result<Vec<TrackKey>, AllocError>
    ensures value { IfOk result (λ keys. keys.items ≡ filter (has_target catalogue.now) listed.now) }
    ensures targets { IfOk result (λ keys. All (HasTarget catalogue.now) keys.items) }
{
    let mut keys = Vec::new(alloc);
    for key in listed {
        if has_target(catalogue, key) {
            keys.extend_from_slice(&[*key])?;
        }
    }
    Ok(keys)
}

/// Whether the cohort of a track is marked; one without a mark counts as marked.
pub(crate) fn is_marked(marks: &[Items<bool>], key: &TrackKey) -> bool
    ensures { result ≡ is_marked marks.now key.now }
{
    match marks.get(key.app) {
        Some(own) => match own.as_slice().get(key.cohort) {
            Some(marked) => *marked,
            None => true,
        },
        None => true,
    }
}

// Those of the tracks whose cohorts are marked.
fn marked(
    alloc: Global,
    listed: &[TrackKey],
    marks: &[Items<bool>],
) -> Result<Vec<TrackKey>, AllocError>
    ensures { IfOk result (λ keys. keys.items ≡ filter (is_marked marks.now) listed.now) }
{
    let mut keys = Vec::new(alloc);
    for key in listed {
        if is_marked(marks, key) {
            keys.extend_from_slice(&[*key])?;
        }
    }
    Ok(keys)
}

/// The keys of the tracks that have a target, in order.
pub(crate) fn tracks(alloc: Global, catalogue: &Catalogue) -> Result<Vec<TrackKey>, AllocError>
    ensures value { IfOk result (λ keys. keys.items ≡ tracks_of catalogue.now) }
    ensures targets { IfOk result (λ keys. All (HasTarget catalogue.now) keys.items) }
{
    let all = all_keys(alloc, catalogue)?;
    let keys = targeted(alloc, catalogue, all.as_slice())?;
    Ok(keys)
}

/// The keys of the tracks of marked cohorts that have a target, in order.
pub(crate) fn tracks_for(
    alloc: Global,
    catalogue: &Catalogue,
    marks: &[Items<bool>],
) -> Result<Vec<TrackKey>, AllocError>
    ensures value { IfOk result (λ keys. keys.items ≡ marked_tracks catalogue.now marks.now) }
    ensures targets { IfOk result (λ keys. All (HasTarget catalogue.now) keys.items) }
{
    let all = all_keys(alloc, catalogue)?;
    let chosen = marked(alloc, all.as_slice(), marks)?;
    let keys = targeted(alloc, catalogue, chosen.as_slice())?;
    Ok(keys)
}
