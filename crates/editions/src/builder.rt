//! Editions of whole histories.

ghost use Rattle.std.specs.Prelude.{◌≡◌, ◌≤◌, [], ◌∷◌, ◌++◌, Err, IfErr, IfOk, MatchResult, Ok, length, map};
ghost use Rattle.std.specs.Arc.{arc_value};
ghost use Rattle.editions.specs.Editions.{Continues};

use crate::edition::{Edition, MAX_BATCHES};
use crate::fault::NextError;
use catalogue::{Batch, Catalogue};
use par_tables::{Gate, TrackTables, build};
use std::alloc::{AllocError, Global};
use std::marker::Model;
use std::sync::Arc;
use std::thread::Threads;

/// A history of accepted batches with its catalogue, of which no table is made, which contracts see as the history.
pub struct EditionBuilder {
    alloc: Global,
    batches: Vec<Arc<Batch>>,
    catalogue: Catalogue,
}

// Written out, so that no caller proves again how each part is dropped.
impl Drop for EditionBuilder {
    fn drop(self) {
        let EditionBuilder {
            alloc: _,
            batches: _,
            catalogue: _,
        } = self;
    }
}

impl Model for EditionBuilder {
    ghost use Rattle.std.specs.Prelude.{map};
    ghost use Rattle.std.specs.Arc.{arc_value};
    ghost use Rattle.catalogue.specs.Histories.{History};
    ghost use Rattle.editions.specs.Editions.{IsLed};

    ghost Value = { History };

    ghost view = { λ b. map arc_value b.batches.items };

    ghost invariant = { λ b. IsLed (map arc_value b.batches.items) b.catalogue };
}

impl EditionBuilder {
    /// Begins with no batch; it allocates nothing.
    pub fn new(alloc: Global) -> EditionBuilder
        ensures { result ≡ [] }
    {
        EditionBuilder {
            alloc,
            batches: Vec::new(alloc),
            catalogue: Catalogue::empty(alloc),
        }
    }

    // rule: Edition of a whole history
    /// Adds the next batch, and makes no table.
    ///
    /// Fails as `Edition::next` does, and then all is as before.
    pub fn add(&mut self, batch: Batch) -> Result<(), NextError>
        ensures ok { MatchResult result (λ _. Continues self.old batch (Ok self.new)) (λ _. self.new ≡ self.old) }
        ensures err { IfErr result (λ error. Continues self.old batch (Err error)) }
    {
        catalogue::histories::growth();
        let made = self.catalogue.applied(&batch)?;
        if self.batches.len() >= MAX_BATCHES {
            return Err(NextError::HistoryFull);
        }
        self.batches.push(Arc::new(self.alloc, batch)?)?;
        self.catalogue = made;
        Ok(())
    }

    // rule: Edition of a whole history
    /// Makes the edition of all batches, with the certified tables of the last content.
    ///
    /// The tables are made in `workers` pieces, from 1 to 16, each of which may have a thread of its own and calls `gate`
    /// before its first table.
    pub fn build<R: Threads, G: Gate + Sync>(
        self,
        rt: &R,
        workers: usize,
        gate: &G,
    ) -> Result<Edition, AllocError>
        requires { (1 ≤ workers) × (workers ≤ 16) }
        ensures { IfOk result (λ edition. edition ≡ self) }
    {
        let EditionBuilder {
            alloc,
            batches,
            catalogue,
        } = self;
        let built = build(rt, alloc, &catalogue, workers, gate)?;
        let tables = TrackTables::placed(alloc, &catalogue, built)?;
        Ok(Edition::of_parts(alloc, batches, catalogue, tables))
    }
}
