//! The tallies of all workers.

ghost use Rattle.std.specs.Prelude.{IfOk};
ghost use Rattle.tallies.specs.Totals.{IsOfSize};

use crate::cell::Cell;
use crate::tally::Tally;
use crate::totals::{Totals, totals_of};
use std::alloc::{AllocError, Global};

/// A tally for each worker.
pub struct Tallies {
    first: Tally,
    others: Vec<Tally>,
}

// Written out, so that no caller proves again how each part is dropped.
impl Drop for Tallies {
    fn drop(self) {
        let Tallies {
            first: _,
            others: _,
        } = self;
    }
}

// The tallies of the workers after the first.
fn others_of(
    alloc: Global,
    workers: usize,
    mirrors: usize,
    cohorts: &[usize],
) -> Result<Vec<Tally>, AllocError> {
    let mut others = Vec::new(alloc);
    for _worker in 1..workers {
        others.push(Tally::new(alloc, mirrors, cohorts)?)?;
    }
    Ok(others)
}

impl Tallies {
    /// Makes a tally for each of so many workers: of so many mirrors, and of a catalogue whose apps have so many cohorts
    /// each. Out of memory is the only error.
    pub fn new(
        alloc: Global,
        workers: usize,
        mirrors: usize,
        cohorts: &[usize],
    ) -> Result<Tallies, AllocError> {
        let first = Tally::new(alloc, mirrors, cohorts)?;
        let others = others_of(alloc, workers, mirrors, cohorts)?;
        Ok(Tallies { first, others })
    }

    /// Makes a tally that has no cells for statuses, mirrors and cohorts. It takes no memory.
    pub fn empty(alloc: Global) -> Tallies {
        Tallies {
            first: Tally::empty(alloc),
            others: Vec::new(alloc),
        }
    }

    /// Whether there are no cells for statuses, mirrors and cohorts.
    pub fn is_empty(&self) -> bool {
        self.first.is_empty()
    }

    /// The tally of a worker, by its number from 0; that of the first if there are fewer.
    pub fn of(&self, worker: usize) -> &Tally {
        if worker == 0 {
            return &self.first;
        }
        match self.others.get(worker - 1) {
            Some(tally) => tally,
            None => &self.first,
        }
    }

    // rule: Sums of tallies
    /// Sums the tallies of all workers, for so many mirrors and for a catalogue whose apps have so many cohorts each.
    ///
    /// Workers may count meanwhile: each number is one that its cell had, and no two need be of one time. Out of memory is
    /// the only error.
    pub fn totals(
        &self,
        alloc: Global,
        mirrors: usize,
        cohorts: &[usize],
    ) -> Result<Totals, AllocError>
        ensures { IfOk result (λ totals. IsOfSize mirrors cohorts.now totals) }
    {
        totals_of(alloc, self, mirrors, cohorts)
    }

    // The sum of the numbers that a cell has.
    pub(crate) fn sum(&self, cell: Cell) -> u64 {
        let mut sum = self.first.number(cell);
        for tally in &self.others {
            sum = sum.wrapping_add(tally.number(cell));
        }
        sum
    }
}
