//! The sums of the tallies of all workers.

ghost use Rattle.std.specs.Prelude.{◌≡◌, IfOk, length, map};
ghost use Rattle.tallies.specs.Totals.{IsOfSize, all_replies};

use crate::cell::Cell;
use crate::check::{Kind, Outcome, Track};
use crate::codes::CODES;
use crate::tallies::Tallies;
use std::alloc::{AllocError, Global};
use values::Items;

/// The update checks of a cohort's clients, by their outcomes.
#[derive(Clone, Copy, Drop)]
pub struct CheckTotals {
    /// How many got an offer.
    pub offered: u64,
    /// How many got `noupdate`.
    pub noupdate: u64,
    /// How many got `error-internal`.
    pub internal: u64,
}

/// The bytes that were offered from a mirror.
#[derive(Clone, Copy, Drop)]
pub struct MirrorTotals {
    /// Those of full packages.
    pub full: u64,
    /// Those of differentials.
    pub differential: u64,
}

/// What all workers of a server counted.
pub struct Totals {
    /// The replies, by the positions of their statuses in `CODES`.
    pub replies: Items<u64>,
    /// The update checks of known apps, by app and cohort in the catalogue's order.
    pub checks: Items<Items<CheckTotals>>,
    /// The update checks of unknown apps.
    pub unknown: u64,
    /// The update checks of cohorts for which there is no cell.
    pub uncounted: u64,
    /// The bytes that were offered, by mirror in the catalogue's order.
    pub bytes: Items<MirrorTotals>,
    /// The connections that are open, and have sent nothing since the last whole reply.
    pub idle: u64,
    /// The connections that are open, and have sent a message or a part of one.
    pub active: u64,
    /// The downloads that were cut off as the package is missing or isn't the declared one.
    pub failures: u64,
}

// Written out, so that no caller proves again how each part is dropped.
impl Drop for Totals {
    fn drop(self) {
        let Totals {
            replies: _,
            checks: _,
            unknown: _,
            uncounted: _,
            bytes: _,
            idle: _,
            active: _,
            failures: _,
        } = self;
    }
}

impl Totals {
    // rule: All replies
    /// Sums the replies of all statuses; the sum stays at 2^64 - 1 once it is reached.
    pub fn all_replies(&self) -> u64
        ensures { result ≡ all_replies self.now.replies }
    {
        let mut all = 0u64;
        for replies in self.replies.as_slice() {
            all = all.saturating_add(*replies);
        }
        all
    }
}

fn replies_of(alloc: Global, tallies: &Tallies) -> Result<Vec<u64>, AllocError>
    ensures { IfOk result (λ replies. length replies.items ≡ 13) }
{
    let mut replies = Vec::new(alloc);
    for position in 0..CODES.len() {
        replies.push(tallies.sum(Cell::Replies(position)))?;
    }
    Ok(replies)
}

fn checks_of_track(tallies: &Tallies, track: Track) -> CheckTotals {
    CheckTotals {
        offered: tallies.sum(Cell::Checks(track, Outcome::Offered)),
        noupdate: tallies.sum(Cell::Checks(track, Outcome::NoUpdate)),
        internal: tallies.sum(Cell::Checks(track, Outcome::Internal)),
    }
}

fn checks_of_app(
    alloc: Global,
    tallies: &Tallies,
    app: usize,
    cohorts: usize,
) -> Result<Items<CheckTotals>, AllocError>
    ensures { IfOk result (λ checks. length checks ≡ cohorts) }
{
    let mut checks = Vec::new(alloc);
    for cohort in 0..cohorts {
        checks.push(checks_of_track(tallies, Track { app, cohort }))?;
    }
    Ok(Items::new(checks))
}

fn checks_of(
    alloc: Global,
    tallies: &Tallies,
    cohorts: &[usize],
) -> Result<Vec<Items<CheckTotals>>, AllocError>
    ensures { IfOk result (λ checks. map length checks.items ≡ cohorts.now) }
{
    let mut checks = Vec::new(alloc);
    for (app, many) in cohorts.iter().enumerate() {
        checks.push(checks_of_app(alloc, tallies, app, *many)?)?;
    }
    Ok(checks)
}

fn bytes_of(
    alloc: Global,
    tallies: &Tallies,
    mirrors: usize,
) -> Result<Vec<MirrorTotals>, AllocError>
    ensures { IfOk result (λ bytes. length bytes.items ≡ mirrors) }
{
    let mut bytes = Vec::new(alloc);
    for mirror in 0..mirrors {
        bytes.push(MirrorTotals {
            full: tallies.sum(Cell::Bytes(mirror, Kind::Full)),
            differential: tallies.sum(Cell::Bytes(mirror, Kind::Differential)),
        })?;
    }
    Ok(bytes)
}

// rule: Sums of tallies
/// Sums the tallies of all workers.
pub(crate) fn totals_of(
    alloc: Global,
    tallies: &Tallies,
    mirrors: usize,
    cohorts: &[usize],
) -> Result<Totals, AllocError>
    ensures { IfOk result (λ totals. IsOfSize mirrors cohorts.now totals) }
{
    let replies = replies_of(alloc, tallies)?;
    let bytes = bytes_of(alloc, tallies, mirrors)?;
    let checks = checks_of(alloc, tallies, cohorts)?;
    Ok(Totals {
        replies: Items::new(replies),
        checks: Items::new(checks),
        unknown: tallies.sum(Cell::Unknown),
        uncounted: tallies.sum(Cell::Uncounted),
        bytes: Items::new(bytes),
        idle: tallies.sum(Cell::Idle),
        active: tallies.sum(Cell::Active),
        failures: tallies.sum(Cell::Failures),
    })
}
