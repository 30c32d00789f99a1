//! The tables of a piece of the tracks.

ghost use Rattle.std.specs.Prelude.{◌≡◌, ◌*◌, ◌/◌, ◌^◌, ◌<◌, ◌≤◌, [], All, IfOk, length};
ghost use Rattle.par_tables.specs.Pieces.{piece_of, HasTarget};
ghost use Rattle.par_tables.specs.Tables.{Adds};

use crate::cache::tables_of;
use catalogue::Catalogue;
use payload_graph::TrackKey;
use price_cert::Certified;
use std::alloc::{AllocError, Global};
use worker_threads::Gate;

fn bound_of(count: usize, workers: usize, piece: usize) -> usize
    requires piece { piece ≤ workers }
    requires workers { (1 ≤ workers) × (workers ≤ 16) }
    requires few { count < 2 ^ 59 }
    ensures { result ≡ piece * count / workers }
{
    piece * count / workers
}

// rule: Piece of tables
/// Makes the tables of a piece of the tracks, after the gate was called.
pub(crate) fn piece_tables<G: Gate>(
    alloc: Global,
    catalogue: &Catalogue,
    keys: &[TrackKey],
    workers: usize,
    piece: usize,
    gate: &G,
) -> Result<Vec<Certified>, AllocError>
    requires piece { piece < workers }
    requires workers { workers ≤ 16 }
    requires targets { All (HasTarget catalogue.now) keys.now }
    ensures { IfOk result (λ tables. Adds catalogue.now (piece_of keys.now workers piece) [] tables.items) }
{
    let low = bound_of(keys.len(), workers, piece);
    let high = bound_of(keys.len(), workers, piece + 1);
    gate.begin(piece, high - low);
    tables_of(alloc, catalogue, &keys[low..high])
}
