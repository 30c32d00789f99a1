//! The tables of all tracks, found by key.

ghost use Rattle.std.specs.Prelude.{◌≡◌, ℕ, ◌+◌, ◌<◌, ◌≤◌, [], All, Contains, IfOk, MatchOption};
ghost use Rattle.par_tables.specs.Places.{start_of, HasOtherKey, HasOtherKeyAt};
ghost use Rattle.par_tables.specs.Tables.{AreTables};

use crate::building::list_tables;
use crate::places::{Places, places_of};
use catalogue::Catalogue;
use payload_graph::TrackKey;
use price_cert::Certified;
use std::alloc::{AllocError, Global};
use std::marker::Model;

/// The tables of a catalogue in the order of its tracks, which contracts see as their list.
///
/// Beside the list it keeps a number for each app and each cohort.
pub struct TrackTables {
    list: Vec<Certified>,
    starts: Vec<usize>,
    firsts: Vec<usize>,
}

// Written out, so that no caller proves again how each part is dropped.
impl Drop for TrackTables {
    fn drop(self) {
        let TrackTables {
            list: _,
            starts: _,
            firsts: _,
        } = self;
    }
}

impl Model for TrackTables {
    ghost use Rattle.std.specs.Prelude.{List, map};
    ghost use Rattle.price_cert.specs.Tables.{Certificate};

    ghost Value = { List Certificate };

    ghost use Rattle.par_tables.specs.Places.{ArePlaced};
    ghost use Rattle.par_tables.specs.Tables.{net_of_table};

    ghost view = { λ t. t.list.items };

    ghost invariant = { λ t. ArePlaced t.firsts.items t.starts.items (map net_of_table t.list.items) };
}

// Where the search for a key begins.
fn start_of(firsts: &[usize], starts: &[usize], key: &TrackKey) -> Option<usize>
    ensures { result ≡ start_of firsts.now starts.now key.now }
{
    let first = *firsts.get(key.app)?;
    let index = first.checked_add(key.cohort)?;
    starts.get(index).copied()
}

// The table of a key among the first four.
fn find_near<'a>(tables: &'a [Certified], key: &TrackKey) -> Option<&'a Certified>
    ensures { MatchOption result
        ((place : ℕ) → place < 4 → HasOtherKeyAt key.now tables.now place)
        (λ table. Contains tables.now table.now × (table.now.net.key ≡ key.now)) }
{
    let count = tables.len().min(4);
    for index in 0..count {
        let table = &tables[index];
        if table.key() == *key {
            return Some(table);
        }
    }
    None
}

// The table of a key among the four from an index on.
fn find_from<'a>(tables: &'a [Certified], start: usize, key: &TrackKey) -> Option<&'a Certified>
    ensures { MatchOption result
        ((place : ℕ) → start ≤ place → place < start + 4 → HasOtherKeyAt key.now tables.now place)
        (λ table. Contains tables.now table.now × (table.now.net.key ≡ key.now)) }
{
    if start > tables.len() {
        return None;
    }
    find_near(&tables[start..], key)
}

impl TrackTables {
    /// Makes the list of no tables, that of the empty catalogue; it allocates nothing.
    pub fn empty(alloc: Global) -> TrackTables
        ensures { AreTables [] result }
    {
        TrackTables {
            list: Vec::new(alloc),
            starts: Vec::new(alloc),
            firsts: Vec::new(alloc),
        }
    }

    /// Makes the tables of a catalogue of their list, as `build` or `merged` makes it.
    pub fn placed(
        alloc: Global,
        catalogue: &Catalogue,
        list: Vec<Certified>,
    ) -> Result<TrackTables, AllocError>
        requires { AreTables catalogue.now list.items }
        ensures { IfOk result (λ tables. tables ≡ list.items) }
    {
        let places = places_of(alloc, catalogue)?;
        let Places { starts, firsts, .. } = places;
        Ok(TrackTables {
            list,
            starts,
            firsts,
        })
    }

    /// Borrows the tables, in the order of the tracks.
    pub fn as_slice(&self) -> &[Certified]
        ensures { result.now ≡ self.now }
    {
        self.list.as_slice()
    }

    // rule: Table of a key
    /// Finds the table of a key, `None` if there is none.
    ///
    /// It looks at four tables at most.
    pub fn find(&self, key: &TrackKey) -> Option<&Certified>
        ensures { MatchOption result (All (HasOtherKey key.now) self.now) (λ table. Contains self.now table.now × (table.now.net.key ≡ key.now)) }
    {
        match start_of(self.firsts.as_slice(), self.starts.as_slice(), key) {
            Some(start) => find_from(self.list.as_slice(), start, key),
            None => None,
        }
    }
}

// rule: Tables of a catalogue
/// Makes the certified tables of the tracks of a catalogue that have a target, in order.
///
/// Their clients have no pin. Apps come in their order, and in each one its cohorts. A cohort has the table of its
/// target, then that of its held target, each for clients that allow no downgrade and, if the cohort does, for
/// those that do.
pub fn tables(alloc: Global, catalogue: &Catalogue) -> Result<TrackTables, AllocError>
    ensures { IfOk result (λ tables. AreTables catalogue.now tables) }
{
    let list = list_tables(alloc, catalogue)?;
    TrackTables::placed(alloc, catalogue, list)
}
