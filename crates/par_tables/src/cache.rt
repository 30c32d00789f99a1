//! Tables that are kept from one call to the next.

ghost use Rattle.std.specs.Prelude.{◌≡◌, ◌≤◌, ◌∷◌, ◌⊎◌, [], All, Contains, IfOk, IfSome, OnOk, length};
ghost use Rattle.lru.specs.LruCache.{lru_cache};
ghost use Rattle.payload_graph.specs.Net.{resolved_at};
ghost use Rattle.par_tables.specs.Caches.{tables_among, tables_in, AreOwnTables};
ghost use Rattle.par_tables.specs.Marks.{IsTableOf};
ghost use Rattle.par_tables.specs.Pieces.{HasTarget};
ghost use Rattle.par_tables.specs.Tables.{Adds};

use crate::keeping::push_copy;
use crate::making::{Resolved, new_table};
use catalogue::Catalogue;
use lru::LruCache;
use payload_graph::TrackKey;
use price_cert::Certified;
use std::alloc::{AllocError, Global};
use std::marker::Model;
use std::num::NonZeroUsize;

/// Tables of tracks of one catalogue that are kept from one call to the next, which contracts see as their list.
///
/// There are at most as many as its capacity: the one that was used least recently goes for another one. Whoever has
/// the cache clears it for another catalogue.
pub struct TableCache {
    capacity: usize,
    // None until a table is kept.
    entries: Option<LruCache<TrackKey, Certified>>,
}

// Written out, so that no caller proves again how each part is dropped.
impl Drop for TableCache {
    fn drop(self) {
        let TableCache {
            capacity: _,
            entries: _,
        } = self;
    }
}

impl Model for TableCache {
    ghost use Rattle.std.specs.Prelude.{◌≡◌, IfSome};
    ghost use Rattle.par_tables.specs.Caches.{Cached, tables_in};

    ghost Value = { Cached };

    ghost view = { λ c. record { tables = tables_in c.entries; capacity = c.capacity } };

    ghost invariant = { λ c. IfSome c.entries (λ entries. entries.cap ≡ c.capacity) };
}

// An empty cache of so many tables; none if it is to have no tables, or if memory runs out.
fn empty_entries(alloc: Global, capacity: usize) -> Option<LruCache<TrackKey, Certified>>
    ensures { IfSome result (λ entries. entries ≡ lru_cache [] capacity) }
{
    let capacity = NonZeroUsize::new(capacity)?;
    match LruCache::sparse(alloc, capacity) {
        Ok(entries) => Some(entries),
        Err(_) => None,
    }
}

// The entries of a cache of so many tables: those that it has, or none; nothing if there can be none.
fn entries_of(
    entries: Option<LruCache<TrackKey, Certified>>,
    alloc: Global,
    capacity: usize,
) -> Option<LruCache<TrackKey, Certified>>
    requires { IfSome entries (λ entries. entries.cap ≡ capacity) }
    ensures tables { IfSome result (λ made. tables_among made.entries ≡ tables_in entries) }
    ensures capacity { IfSome result (λ made. made.cap ≡ capacity) }
{
    match entries {
        Some(entries) => Some(entries),
        None => empty_entries(alloc, capacity),
    }
}

// A copy of a table, if it is that of a key, and unless memory runs out.
fn copy_of(table: &Certified, key: &TrackKey) -> Option<Certified>
    ensures same { IfSome result (λ copied. copied ≡ table.now) }
    ensures key { IfSome result (λ _. table.now.net.key ≡ key.now) }
{
    if table.key() == *key {
        match table.copy() {
            Ok(copied) => Some(copied),
            Err(_) => None,
        }
    } else {
        None
    }
}

// A copy of the table of a key, which is then the one that was used last.
fn find_in(entries: &mut LruCache<TrackKey, Certified>, key: &TrackKey) -> Option<Certified>
    ensures found { IfSome result (λ table. Contains (tables_among entries.old.entries) table × (table.net.key ≡ key.now)) }
    ensures kept { All (Contains (tables_among entries.old.entries)) (tables_among entries.new.entries) }
    ensures capacity { entries.new.cap ≡ entries.old.cap }
{
    if !entries.promote(key) {
        return None;
    }
    copy_of(entries.peek(key)?, key)
}

// Keeps a table under its key, unless memory runs out.
fn put_in(entries: &mut LruCache<TrackKey, Certified>, table: Certified)
    ensures kept { All (λ kept. Contains (tables_among entries.old.entries) kept ⊎ (kept ≡ table)) (tables_among entries.new.entries) }
    ensures capacity { entries.new.cap ≡ entries.old.cap }
{
    let key = table.key();
    match entries.put(key, table) {
        Ok(_) => {}
        Err(_) => {}
    }
}

impl TableCache {
    /// Makes a cache of at most so many tables, which has none. It takes no memory.
    pub fn new(capacity: usize) -> TableCache
        ensures none { result.tables ≡ [] }
        ensures capacity { result.capacity ≡ capacity }
    {
        TableCache {
            capacity,
            entries: None,
        }
    }

    // How many tables there are.
    fn len(&self) -> usize
        ensures count { result ≡ length self.now.tables }
        ensures few { length self.now.tables ≤ self.now.capacity }
    {
        match &self.entries {
            Some(entries) => entries.len(),
            None => 0,
        }
    }

    /// Drops all tables.
    pub fn clear(&mut self)
        ensures none { self.new.tables ≡ [] }
        ensures capacity { self.new.capacity ≡ self.old.capacity }
    {
        self.entries = None;
    }

    // A copy of the table of a key, which is then the one that was used last.
    fn find(&mut self, key: &TrackKey) -> Option<Certified>
        ensures found { IfSome result (λ table. Contains self.old.tables table × (table.net.key ≡ key.now)) }
        ensures kept { All (Contains self.old.tables) self.new.tables }
        ensures capacity { self.new.capacity ≡ self.old.capacity }
    {
        let mut entries = self.entries.take()?;
        let found = find_in(&mut entries, key);
        self.entries = Some(entries);
        found
    }

    // Keeps a table; not if there is no place for any, nor if memory runs out.
    fn keep(&mut self, alloc: Global, table: Certified)
        ensures kept { All (λ kept. Contains self.old.tables kept ⊎ (kept ≡ table)) self.new.tables }
        ensures capacity { self.new.capacity ≡ self.old.capacity }
    {
        let Some(mut entries) = entries_of(self.entries.take(), alloc, self.capacity) else {
            return;
        };
        put_in(&mut entries, table);
        self.entries = Some(entries);
    }

    // Adds the table of a track: a copy of the one that is kept, or a new one, which is kept from then on.
    fn push_table(
        &mut self,
        tables: &mut Vec<Certified>,
        resolved: &mut Option<Resolved>,
        alloc: Global,
        catalogue: &Catalogue,
        key: &TrackKey,
    ) -> Result<(), AllocError>
        requires own { AreOwnTables catalogue.now self.old.tables }
        requires target { HasTarget catalogue.now key.now }
        requires resolved { IfSome resolved.old (λ known. known.differentials ≡ resolved_at catalogue.now known.app) }
        ensures table { OnOk result (Adds catalogue.now (key.now ∷ []) tables.old.items tables.new.items) }
        ensures own { AreOwnTables catalogue.now self.new.tables }
        ensures capacity { self.new.capacity ≡ self.old.capacity }
        ensures resolved { IfSome resolved.new (λ known. known.differentials ≡ resolved_at catalogue.now known.app) }
    {
        if let Some(table) = self.find(key) {
            return push_copy(tables, catalogue, key, &table);
        }
        let table = new_table(resolved, alloc, catalogue, key)?;
        push_copy(tables, catalogue, key, &table)?;
        self.keep(alloc, table);
        Ok(())
    }

    // rule: Cached tables
    /// Makes the tables of tracks that have a target, in the order of their keys, as `tables_of` does.
    ///
    /// The tables that are kept are of the same catalogue. If one is of the track, it is copied, and the copy shares its
    /// rows. Otherwise the table is made and kept; it is not kept if memory runs out for that. The differentials of an
    /// app are resolved once for all of its tracks that follow one another and have no table yet.
    pub fn tables_of(
        &mut self,
        alloc: Global,
        catalogue: &Catalogue,
        keys: &[TrackKey],
    ) -> Result<Vec<Certified>, AllocError>
        requires own { AreOwnTables catalogue.now self.old.tables }
        requires targets { All (HasTarget catalogue.now) keys.now }
        ensures tables { IfOk result (λ tables. Adds catalogue.now keys.now [] tables.items) }
        ensures own { AreOwnTables catalogue.now self.new.tables }
        ensures few { OnOk result (length self.new.tables ≤ self.new.capacity) }
        ensures capacity { self.new.capacity ≡ self.old.capacity }
    {
        let mut tables = Vec::new(alloc);
        let mut resolved = None;
        for key in keys {
            self.push_table(&mut tables, &mut resolved, alloc, catalogue, key)?;
        }
        let _few = self.len();
        Ok(tables)
    }
}

/// Makes the tables of tracks that have a target, in the order of their keys.
///
/// The differentials of an app are resolved once for all of its tracks that follow one another.
pub fn tables_of(
    alloc: Global,
    catalogue: &Catalogue,
    keys: &[TrackKey],
) -> Result<Vec<Certified>, AllocError>
    requires { All (HasTarget catalogue.now) keys.now }
    ensures { IfOk result (λ tables. Adds catalogue.now keys.now [] tables.items) }
{
    let mut none = TableCache::new(0);
    none.tables_of(alloc, catalogue, keys)
}
