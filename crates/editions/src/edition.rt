ghost use Rattle.std.specs.Prelude.{◌≡◌, ◌≤◌, [], ◌∷◌, ◌++◌, Err, IfErr, IfOk, IfSome, length, map, option_map};
ghost use Rattle.std.specs.Arc.{arc_value};
ghost use Rattle.catalogue.specs.Histories.{LeadsTo};
ghost use Rattle.payload_graph.specs.Net.{net_among};
ghost use Rattle.par_tables.specs.Marks.{AreTablesFor, KeepsOthers};
ghost use Rattle.par_tables.specs.Tables.{AreTables};
ghost use Rattle.editions.specs.Drafts.{IsDraft};
ghost use Rattle.editions.specs.Editions.{content_of, max_batches, Continues, IsSound, IsTrackKey};

use crate::fault::NextError;
use crate::marks::marks_of;
use catalogue::{Batch, Catalogue};
use par_tables::{Gate, TrackTables, build_for, merged, tables_for};
use payload_graph::TrackKey;
use price_cert::Certified;
use std::alloc::{AllocError, Global};
use std::marker::Model;
use std::sync::Arc;
use std::thread::Threads;
use values::Items;

pub(crate) const MAX_BATCHES: usize = 4096;

/// A history of accepted batches with its catalogue and the certified tables of its tracks, which
/// contracts see as the history.
///
/// Its batches are shared with the editions before and after it.
pub struct Edition {
    alloc: Global,
    batches: Vec<Arc<Batch>>,
    catalogue: Catalogue,
    tables: TrackTables,
}

// Written out, so that no caller proves again how each part is dropped.
impl Drop for Edition {
    fn drop(self) {
        let Edition {
            alloc: _,
            batches: _,
            catalogue: _,
            tables: _,
        } = self;
    }
}

impl Model for Edition {
    ghost use Rattle.std.specs.Prelude.{map};
    ghost use Rattle.std.specs.Arc.{arc_value};
    ghost use Rattle.catalogue.specs.Histories.{History};

    ghost Value = { History };

    ghost use Rattle.editions.specs.Editions.{IsSound};

    ghost view = { λ e. map arc_value e.batches.items };

    ghost invariant = { λ e. IsSound (map arc_value e.batches.items) e.catalogue e.tables };
}

// What a batch leads to, with marks of the cohorts of each app whose tracks it may change.
#[derive(Drop)]
struct Draft {
    made: Catalogue,
    marks: Vec<Items<bool>>,
}

// The same batches with one more, in a list of its own.
fn followed(
    alloc: Global,
    batches: &[Arc<Batch>],
    batch: Batch,
) -> Result<Vec<Arc<Batch>>, AllocError>
    ensures { IfOk result (λ next.
        map arc_value next.items ≡ map arc_value batches.now ++ batch ∷ []) }
{
    let mut next = Vec::new(alloc);
    for earlier in batches {
        next.push(Arc::try_clone(earlier)?)?;
    }
    next.push(Arc::new(alloc, batch)?)?;
    Ok(next)
}

// rule: Tables of an edition
// The tables of the next edition: those of the marked cohorts, and this edition's of the others.
fn next_tables(
    alloc: Global,
    before: &Catalogue,
    tables: &TrackTables,
    draft: &Draft,
    built: &[Certified],
) -> Result<TrackTables, AllocError>
    requires tables { AreTables before.now tables.now }
    requires kept { KeepsOthers before.now draft.now.made draft.now.marks.items }
    requires built { AreTablesFor draft.now.made draft.now.marks.items built.now }
    ensures { IfOk result (λ next. AreTables draft.now.made next) }
{
    let marks = draft.marks.as_slice();
    let list = merged(alloc, before, tables, &draft.made, marks, built)?;
    TrackTables::placed(alloc, &draft.made, list)
}

impl Edition {
    pub(crate) fn of_parts(
        alloc: Global,
        batches: Vec<Arc<Batch>>,
        catalogue: Catalogue,
        tables: TrackTables,
    ) -> Edition
        requires { IsSound (map arc_value batches.items) catalogue tables }
        ensures { result ≡ map arc_value batches.items }
    {
        Edition {
            alloc,
            batches,
            catalogue,
            tables,
        }
    }

    /// Makes the edition of no batches; it allocates nothing.
    pub fn empty(alloc: Global) -> Edition
        ensures { result ≡ [] }
    {
        Edition {
            alloc,
            batches: Vec::new(alloc),
            catalogue: Catalogue::empty(alloc),
            tables: TrackTables::empty(alloc),
        }
    }

    /// Counts the batches, at most 4096.
    pub fn number(&self) -> u64
        ensures count { result ≡ length self.now }
        ensures few { length self.now ≤ max_batches }
    {
        self.batches.len() as u64
    }

    /// Borrows the batches in order, each shared with the editions before and after this one.
    pub fn batches(&self) -> &[Arc<Batch>]
        ensures { map arc_value result.now ≡ self.now }
    {
        &self.batches
    }

    /// Borrows the catalogue that the batches lead to.
    pub fn catalogue(&self) -> &Catalogue
        ensures { LeadsTo self.now result.now }
    {
        &self.catalogue
    }

    /// Borrows the certified tables of all tracks with a target, of clients without a pin, in their order.
    pub fn tables(&self) -> &[Certified]
        ensures { AreTables (content_of self.now) result.now }
    {
        self.tables.as_slice()
    }

    // rule: Tables of an edition
    /// Finds the certified table of a track, `None` if the track has no target.
    ///
    /// The key's clients have no pin, and it allows a downgrade only if its cohort does.
    pub fn table(&self, key: &TrackKey) -> Option<&Certified>
        requires { IsTrackKey (content_of self.now) key.now }
        ensures table { option_map (λ table. table.now.net) result ≡ net_among (content_of self.now) key.now }
        ensures key { IfSome result (λ table. table.now.net.key ≡ key.now) }
    {
        par_tables::laws::tracks();
        match self.tables.find(key) {
            Some(table) => Some(table),
            None => None,
        }
    }

    // rule: Room for 4096 batches
    // rule: A rejected batch before a full history
    // What a batch leads to, or why it has no next edition.
    fn draft(&self, batch: &Batch) -> Result<Draft, NextError>
        ensures ok { IfOk result (λ draft. IsDraft self.now batch.now draft) }
        ensures err { IfErr result (λ error. Continues self.now batch.now (Err error)) }
    {
        let made = self.catalogue.applied(batch)?;
        if self.batches.len() >= MAX_BATCHES {
            return Err(NextError::HistoryFull);
        }
        let marks = marks_of(self.alloc, &self.catalogue, batch, &made)?;
        Ok(Draft { made, marks })
    }

    // The next edition, by the tables of the marked cohorts.
    fn followed_by(
        &self,
        batch: Batch,
        draft: Draft,
        built: &[Certified],
    ) -> Result<Edition, NextError>
        requires draft { IsDraft self.now batch draft }
        requires built { AreTablesFor draft.made draft.marks.items built.now }
        ensures { Continues self.now batch result }
    {
        catalogue::histories::growth();
        let tables = next_tables(self.alloc, &self.catalogue, &self.tables, &draft, built)?;
        let batches = followed(self.alloc, &self.batches, batch)?;
        let Draft { made, marks: _ } = draft;
        Ok(Edition {
            alloc: self.alloc,
            batches,
            catalogue: made,
            tables,
        })
    }

    // rule: The next edition
    /// Makes the edition with one more batch, and leaves this one as it is.
    ///
    /// A table is kept if the batch changes neither the releases and differentials of its app nor its cohort, but for
    /// the cohort's share and open flag: it shares its rows with this edition's. The calling thread makes the others.
    /// Returns the batch's first rejected edit if there is one, then `HistoryFull` if this edition holds 4096 batches.
    pub fn next(&self, batch: Batch) -> Result<Edition, NextError>
        ensures { Continues self.now batch result }
    {
        let draft = self.draft(&batch)?;
        let built = tables_for(self.alloc, &draft.made, draft.marks.as_slice())?;
        self.followed_by(batch, draft, built.as_slice())
    }

    /// Makes the edition that `next` makes, with the tables that it doesn't keep in `workers` pieces, from 1 to 16, each
    /// of which may have a thread of its own and calls `gate` before its first table.
    ///
    /// The errors are those of `next`; after one of them no piece has begun, unless it is `Memory`.
    pub fn next_with<R: Threads, G: Gate + Sync>(
        &self,
        rt: &R,
        batch: Batch,
        workers: usize,
        gate: &G,
    ) -> Result<Edition, NextError>
        requires { (1 ≤ workers) × (workers ≤ 16) }
        ensures { Continues self.now batch result }
    {
        let draft = self.draft(&batch)?;
        let marks = draft.marks.as_slice();
        let built = build_for(rt, self.alloc, &draft.made, marks, workers, gate)?;
        self.followed_by(batch, draft, built.as_slice())
    }
}
