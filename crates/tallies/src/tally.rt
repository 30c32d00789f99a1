//! What one worker counts.

ghost use Rattle.std.specs.Prelude.{◌≡◌, ◌++◌, IfOk, OnOk, length, map, replicate, is_some};
ghost use Rattle.tallies.specs.Cells.{grant_of};
ghost use Rattle.tallies.specs.Rooms.{has_cell, room, with_more};
ghost use Rattle.tallies.specs.declared.cell.Cell.TheVariants as cell;

use crate::cell::{Cell, cell_of, grant_cell};
use crate::check::{Check, CountChecks, Grant, Kind, Outcome, Track};
use crate::codes::CODES;
use std::alloc::{AllocError, Global};
use std::marker::Model;
use std::sync::atomic::{AtomicU64, Ordering};

// For how many apps there are cells that the catalogue doesn't have at the start.
const MORE_APPS: usize = 256;

// For how many cohorts of an app there are cells that the app doesn't have then.
const MORE_COHORTS: usize = 16;

// The update checks of a cohort's clients, by their outcomes.
struct Checks {
    offered: AtomicU64,
    noupdate: AtomicU64,
    internal: AtomicU64,
}

// Written out, so that no caller proves again how each part is dropped.
impl Drop for Checks {
    fn drop(self) {
        let Checks {
            offered: _,
            noupdate: _,
            internal: _,
        } = self;
    }
}

// The bytes that were offered from a mirror, by the kinds of payloads.
#[derive(Drop)]
struct Offered {
    full: AtomicU64,
    differential: AtomicU64,
}

// The cells that are there once.
struct Single {
    unknown: AtomicU64,
    uncounted: AtomicU64,
    idle: AtomicU64,
    active: AtomicU64,
    failures: AtomicU64,
}

// Written out, so that no caller proves again how each part is dropped.
impl Drop for Single {
    fn drop(self) {
        let Single {
            unknown: _,
            uncounted: _,
            idle: _,
            active: _,
            failures: _,
        } = self;
    }
}

/// What one worker counts, which any thread may read.
///
/// A count begins again at 0 after 2^64 - 1.
pub struct Tally {
    replies: Vec<AtomicU64>,
    mirrors: Vec<Offered>,
    apps: Vec<Vec<Checks>>,
    single: Single,
}

// Written out, so that no caller proves again how each part is dropped.
impl Drop for Tally {
    fn drop(self) {
        let Tally {
            replies: _,
            mirrors: _,
            apps: _,
            single: _,
        } = self;
    }
}

impl Model for Tally {
    ghost use Rattle.std.specs.Prelude.{length, map};
    ghost use Rattle.tallies.specs.Rooms.{Room};

    ghost Value = { Room };

    ghost view = { λ tally. record {
      statuses = length tally.replies.items;
      mirrors = length tally.mirrors.items;
      cohorts = map (λ app. length app.items) tally.apps.items;
    } };
}

fn zero() -> AtomicU64 {
    AtomicU64::new(0)
}

impl Checks {
    fn new() -> Checks {
        Checks {
            offered: zero(),
            noupdate: zero(),
            internal: zero(),
        }
    }

    fn of(&self, outcome: Outcome) -> &AtomicU64 {
        match outcome {
            Outcome::Offered => &self.offered,
            Outcome::NoUpdate => &self.noupdate,
            Outcome::Internal => &self.internal,
        }
    }
}

impl Offered {
    fn new() -> Offered {
        Offered {
            full: zero(),
            differential: zero(),
        }
    }

    fn of(&self, kind: Kind) -> &AtomicU64 {
        match kind {
            Kind::Full => &self.full,
            Kind::Differential => &self.differential,
        }
    }
}

impl Single {
    fn new() -> Single {
        Single {
            unknown: zero(),
            uncounted: zero(),
            idle: zero(),
            active: zero(),
            failures: zero(),
        }
    }
}

// The cells of the statuses.
fn replies(alloc: Global) -> Result<Vec<AtomicU64>, AllocError>
    ensures { IfOk result (λ replies. length replies.items ≡ 13) }
{
    let mut replies = Vec::new(alloc);
    for _position in 0..CODES.len() {
        replies.push(zero())?;
    }
    Ok(replies)
}

// The cells of so many mirrors.
fn mirrors(alloc: Global, many: usize) -> Result<Vec<Offered>, AllocError>
    ensures { IfOk result (λ mirrors. length mirrors.items ≡ many) }
{
    let mut mirrors = Vec::new(alloc);
    for _mirror in 0..many {
        mirrors.push(Offered::new())?;
    }
    Ok(mirrors)
}

// The cells of an app of so many cohorts, and those of later ones.
fn cohorts(alloc: Global, many: usize) -> Result<Vec<Checks>, AllocError>
    ensures { IfOk result (λ cohorts. length cohorts.items ≡ with_more many) }
{
    let mut cohorts = Vec::new(alloc);
    for _cohort in 0..many.saturating_add(MORE_COHORTS) {
        cohorts.push(Checks::new())?;
    }
    Ok(cohorts)
}

// The cells of apps of so many cohorts each.
fn apps(alloc: Global, many: &[usize]) -> Result<Vec<Vec<Checks>>, AllocError>
    ensures { IfOk result (λ apps. map (λ app. length app.items) apps.items ≡ map with_more many.now) }
{
    let mut apps = Vec::new(alloc);
    for of_app in many {
        apps.push(cohorts(alloc, *of_app)?)?;
    }
    Ok(apps)
}

// Adds the cells of later apps.
fn push_more(alloc: Global, apps: &mut Vec<Vec<Checks>>) -> Result<(), AllocError>
    ensures { OnOk result (map (λ app. length app.items) apps.new.items ≡ map (λ app. length app.items) apps.old.items ++ replicate 256 16) }
{
    for _app in 0..MORE_APPS {
        apps.push(cohorts(alloc, 0)?)?;
    }
    Ok(())
}

// What was granted for an update check, if it has an offer.
fn grant_of(check: Check) -> Option<Grant>
    ensures { result ≡ grant_of check }
{
    match check {
        Check::Offered(_, grant) => Some(grant),
        _ => None,
    }
}

impl Tally {
    // rule: Cells of a tally
    /// Makes a tally of so many mirrors, and of a catalogue whose apps have so many cohorts each.
    ///
    /// It has cells for 256 more apps, and for 16 more cohorts of each app. Out of memory is the only error.
    pub fn new(
        alloc: Global,
        mirrors_there: usize,
        cohorts_there: &[usize],
    ) -> Result<Tally, AllocError>
        ensures { IfOk result (λ tally. tally ≡ room mirrors_there cohorts_there.now) }
    {
        let replies = replies(alloc)?;
        let mirrors = mirrors(alloc, mirrors_there)?;
        let mut apps = apps(alloc, cohorts_there)?;
        push_more(alloc, &mut apps)?;
        Ok(Tally {
            replies,
            mirrors,
            apps,
            single: Single::new(),
        })
    }

    // A tally that has no cells but those that are there once.
    pub(crate) fn empty(alloc: Global) -> Tally {
        Tally {
            replies: Vec::new(alloc),
            mirrors: Vec::new(alloc),
            apps: Vec::new(alloc),
            single: Single::new(),
        }
    }

    // Whether it has no others.
    pub(crate) fn is_empty(&self) -> bool {
        self.replies.is_empty()
    }

    // The number of the update checks of a cohort's clients with an outcome.
    fn checks(&self, track: Track, outcome: Outcome) -> Option<&AtomicU64>
        ensures { is_some result ≡ has_cell self.now (cell.Checks track outcome) }
    {
        match self.apps.get(track.app) {
            Some(cohorts) => match cohorts.get(track.cohort) {
                Some(checks) => Some(checks.of(outcome)),
                None => None,
            },
            None => None,
        }
    }

    // The number of a cell, if there is one.
    fn at(&self, cell: Cell) -> Option<&AtomicU64>
        ensures { is_some result ≡ has_cell self.now cell }
    {
        match cell {
            Cell::Replies(position) => self.replies.get(position),
            Cell::Checks(track, outcome) => self.checks(track, outcome),
            Cell::Unknown => Some(&self.single.unknown),
            Cell::Uncounted => Some(&self.single.uncounted),
            Cell::Bytes(mirror, kind) => match self.mirrors.get(mirror) {
                Some(offered) => Some(offered.of(kind)),
                None => None,
            },
            Cell::Idle => Some(&self.single.idle),
            Cell::Active => Some(&self.single.active),
            Cell::Failures => Some(&self.single.failures),
        }
    }

    /// Whether the tally has a cell.
    pub fn has(&self, cell: Cell) -> bool
        ensures { result ≡ has_cell self.now cell }
    {
        self.at(cell).is_some()
    }

    /// Adds to the number of a cell; to that of `Uncounted` if the tally has no such cell.
    pub fn add(&self, cell: Cell, more: u64) {
        match self.at(cell) {
            Some(number) => number.fetch_add(more, Ordering::SeqCst),
            None => self.single.uncounted.fetch_add(more, Ordering::SeqCst),
        };
    }

    /// Takes from the number of a cell what was added to it before.
    pub fn take(&self, cell: Cell, less: u64) {
        if let Some(number) = self.at(cell) {
            number.fetch_sub(less, Ordering::SeqCst);
        }
    }

    /// Reads the number of a cell; 0 if the tally has no such cell.
    pub fn number(&self, cell: Cell) -> u64 {
        match self.at(cell) {
            Some(number) => number.load(Ordering::SeqCst),
            None => 0,
        }
    }
}

impl CountChecks for &Tally {
    fn count(&self, check: Check) {
        self.add(cell_of(check), 1);
        if let Some(grant) = grant_of(check) {
            self.add(grant_cell(grant), grant.bytes);
        }
    }
}
