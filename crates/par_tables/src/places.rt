//! Where the tables of a catalogue are found, which its content alone decides.

ghost use Rattle.std.specs.Prelude.{◌≡◌, ◌+◌, ◌≤◌, ◌∷◌, ◌<◌, [], IfOk, OnOk, length};
ghost use Rattle.par_tables.specs.Places.{ArePlaced, ArePlacesOf};
ghost use Rattle.par_tables.specs.Tables.{nets_of};
ghost use Rattle.par_tables.specs.Tracks.{keys_of};

use crate::keys::cohort_keys;
use crate::tracks::has_target;
use catalogue::Catalogue;
use payload_graph::TrackKey;
use std::alloc::{AllocError, Global};

/// Where the tables of the first apps are found.
#[derive(Drop)]
pub(crate) struct Places {
    /// Where the tables of each cohort begin.
    pub(crate) starts: Vec<usize>,
    /// For each app, how many cohorts are before its own.
    pub(crate) firsts: Vec<usize>,
    /// How many tables there are.
    pub(crate) count: usize,
}

#[tactic(auto, using(crate::proofs::CountLemmas::length_one))]
fn count_target(catalogue: &Catalogue, key: &TrackKey) -> usize
    ensures value { result ≡ length (nets_of catalogue.now (key.now ∷ [])) }
    ensures few { result ≤ 1 }
{
    if has_target(catalogue, key) { 1 } else { 0 }
}

// How many of some tracks have a target.
fn count_targets(catalogue: &Catalogue, keys: &[TrackKey]) -> usize
    ensures { result ≡ length (nets_of catalogue.now keys.now) }
{
    let mut count = 0;
    for key in keys {
        count += count_target(catalogue, key);
    }
    count
}

// The sum, which is out of memory if it doesn't fit: as many tables have no place in memory.
fn sum_of(count: usize, own: usize) -> Result<usize, AllocError>
    ensures { IfOk result (λ sum. sum ≡ count + own) }
{
    count.checked_add(own).ok_or(AllocError)
}

// Adds the places of the next app.
fn push_app(
    places: &mut Places,
    alloc: Global,
    catalogue: &Catalogue,
    app: usize,
) -> Result<(), AllocError>
    requires there { app < length catalogue.now }
    requires places { ArePlacesOf catalogue.now app places.old }
    ensures { OnOk result (ArePlacesOf catalogue.now (app + 1) places.new) }
{
    places.firsts.push(places.starts.len())?;
    let cohorts = catalogue.apps()[app].cohorts.as_slice();
    for index in 0..cohorts.len() {
        places.starts.push(places.count)?;
        let listed = cohort_keys(alloc, app, index, &cohorts[index])?;
        let own = count_targets(catalogue, listed.as_slice());
        places.count = sum_of(places.count, own)?;
    }
    Ok(())
}

/// Finds the places of the tables of a catalogue.
pub(crate) fn places_of(alloc: Global, catalogue: &Catalogue) -> Result<Places, AllocError>
    ensures { IfOk result (λ places. ArePlaced places.firsts.items places.starts.items (nets_of catalogue.now (keys_of catalogue.now))) }
{
    let mut places = Places {
        starts: Vec::new(alloc),
        firsts: Vec::new(alloc),
        count: 0,
    };
    for app in 0..catalogue.apps().len() {
        push_app(&mut places, alloc, catalogue, app)?;
    }
    Ok(places)
}
