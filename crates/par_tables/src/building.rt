//! The tables of a catalogue, or of some of its cohorts, by one thread or by several.

ghost use Rattle.std.specs.Prelude.{◌≡◌, ◌<◌, ◌≤◌, [], All, IfOk, length, take};
ghost use Rattle.par_tables.specs.Marks.{AreTablesFor};
ghost use Rattle.par_tables.specs.Pieces.{bound_of, piece_of, HasTarget};
ghost use Rattle.par_tables.specs.Tables.{Adds, AreTables};

use crate::cache::tables_of;
use crate::piece::piece_tables;
use crate::tracks::{tracks, tracks_for};
use catalogue::Catalogue;
use payload_graph::TrackKey;
use price_cert::Certified;
use std::alloc::{AllocError, Global};
use std::thread::{Threads, join};
use values::Items;
use worker_threads::Gate;

// Makes the tables of the first pieces of the tracks that have a target: the last of them in a thread of its own.
fn first_pieces<R: Threads, G: Gate + Sync>(
    rt: &R,
    alloc: Global,
    catalogue: &Catalogue,
    listed: &[TrackKey],
    workers: usize,
    pieces: usize,
    gate: &G,
) -> Result<Vec<Certified>, AllocError>
    requires workers { (1 ≤ workers) × (workers ≤ 16) }
    requires pieces { pieces ≤ workers }
    requires targets { All (HasTarget catalogue.now) listed.now }
    ensures { IfOk result (λ tables.
        Adds catalogue.now (take (bound_of (length listed.now) workers pieces) listed.now) [] tables.items) }
{
    if pieces == 0 {
        return Ok(Vec::new(alloc));
    }
    let last = pieces - 1;
    let (piece, before) = join(
        rt,
        || -> Result<Vec<Certified>, AllocError>
            requires piece { last < workers }
            requires few { workers ≤ 16 }
            requires targets { All (HasTarget catalogue.now) listed.now }
            ensures { IfOk result (λ tables. Adds catalogue.entry.now (piece_of listed.entry.now workers last) [] tables.items) }
        { piece_tables(alloc, catalogue, listed, workers, last, gate) },
        || -> Result<Vec<Certified>, AllocError>
            requires piece { last < workers }
            requires some { 1 ≤ workers }
            requires few { workers ≤ 16 }
            requires targets { All (HasTarget catalogue.now) listed.now }
            ensures { IfOk result (λ tables.
                Adds catalogue.entry.now (take (bound_of (length listed.entry.now) workers last) listed.entry.now) [] tables.items) }
        { first_pieces(rt, alloc, catalogue, listed, workers, last, gate) },
    );
    let mut tables = before?;
    let mut part = piece?;
    tables.append(&mut part)?;
    Ok(tables)
}

// Makes the tables of tracks that have a target, in pieces.
fn build_tracks<R: Threads, G: Gate + Sync>(
    rt: &R,
    alloc: Global,
    catalogue: &Catalogue,
    listed: &[TrackKey],
    workers: usize,
    gate: &G,
) -> Result<Vec<Certified>, AllocError>
    requires workers { (1 ≤ workers) × (workers ≤ 16) }
    requires targets { All (HasTarget catalogue.now) listed.now }
    ensures { IfOk result (λ tables. Adds catalogue.now listed.now [] tables.items) }
{
    let tables = first_pieces(rt, alloc, catalogue, listed, workers, workers, gate)?;
    Ok(tables)
}

/// Makes the list of a catalogue's tables by the calling thread alone.
pub(crate) fn list_tables(
    alloc: Global,
    catalogue: &Catalogue,
) -> Result<Vec<Certified>, AllocError>
    ensures { IfOk result (λ tables. AreTables catalogue.now tables.items) }
{
    let keys = tracks(alloc, catalogue)?;
    let tables = tables_of(alloc, catalogue, keys.as_slice())?;
    Ok(tables)
}

// rule: Tables of a catalogue
/// Makes the list of a catalogue's tables, as `tables` does, in `workers` pieces, from 1 to 16.
///
/// Each piece may have a thread of its own, and piece `i` of `n` tables has those from `i * n / workers` up to
/// `(i + 1) * n / workers`. Each one, also an empty one, calls `gate` once before its first table.
pub fn build<R: Threads, G: Gate + Sync>(
    rt: &R,
    alloc: Global,
    catalogue: &Catalogue,
    workers: usize,
    gate: &G,
) -> Result<Vec<Certified>, AllocError>
    requires { (1 ≤ workers) × (workers ≤ 16) }
    ensures { IfOk result (λ tables. AreTables catalogue.now tables.items) }
{
    let keys = tracks(alloc, catalogue)?;
    let tables = build_tracks(rt, alloc, catalogue, keys.as_slice(), workers, gate)?;
    Ok(tables)
}

// rule: Tables of marked cohorts
/// Makes those of a catalogue's tables whose cohort is marked, in their order, in pieces as `build` does.
///
/// The marks are those of the cohorts of each app; a cohort without one counts as marked.
pub fn build_for<R: Threads, G: Gate + Sync>(
    rt: &R,
    alloc: Global,
    catalogue: &Catalogue,
    marks: &[Items<bool>],
    workers: usize,
    gate: &G,
) -> Result<Vec<Certified>, AllocError>
    requires { (1 ≤ workers) × (workers ≤ 16) }
    ensures { IfOk result (λ tables. AreTablesFor catalogue.now marks.now tables.items) }
{
    let keys = tracks_for(alloc, catalogue, marks)?;
    let tables = build_tracks(rt, alloc, catalogue, keys.as_slice(), workers, gate)?;
    Ok(tables)
}

// rule: Tables of marked cohorts
/// Makes the list that `build_for` makes, by the calling thread alone.
pub fn tables_for(
    alloc: Global,
    catalogue: &Catalogue,
    marks: &[Items<bool>],
) -> Result<Vec<Certified>, AllocError>
    ensures { IfOk result (λ tables. AreTablesFor catalogue.now marks.now tables.items) }
{
    let keys = tracks_for(alloc, catalogue, marks)?;
    let tables = tables_of(alloc, catalogue, keys.as_slice())?;
    Ok(tables)
}
