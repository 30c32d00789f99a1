//! The table of one track.

ghost use Rattle.std.specs.Prelude.{◌≡◌, ◌<◌, IfOk, IfSome, length};
ghost use Rattle.payload_graph.specs.Net.{resolved_at};
ghost use Rattle.par_tables.specs.Marks.{IsTableOf};
ghost use Rattle.par_tables.specs.Pieces.{HasTarget};

use catalogue::Catalogue;
use payload_graph::{Differentials, Graph, TrackKey};
use price_cert::Certified;
use solver::solve;
use std::alloc::{AllocError, Global};

/// The resolved differentials of an app.
#[derive(Drop)]
pub(crate) struct Resolved {
    app: usize,
    differentials: Differentials,
}

// The resolved differentials of an app: those that are resolved already, if they are its own.
fn resolved_for(
    known: Option<Resolved>,
    alloc: Global,
    catalogue: &Catalogue,
    app: usize,
) -> Result<Resolved, AllocError>
    requires there { app < length catalogue.now }
    requires known { IfSome known (λ known. known.differentials ≡ resolved_at catalogue.now known.app) }
    ensures app { IfOk result (λ resolved. resolved.app ≡ app) }
    ensures resolved { IfOk result (λ resolved. resolved.differentials ≡ resolved_at catalogue.now app) }
{
    if let Some(known) = known {
        if known.app == app {
            return Ok(known);
        }
    }
    let differentials = Differentials::of_app(alloc, catalogue, app)?;
    Ok(Resolved { app, differentials })
}

// The table of a track that has a target.
fn table_by(
    alloc: Global,
    catalogue: &Catalogue,
    differentials: &Differentials,
    key: &TrackKey,
) -> Result<Certified, AllocError>
    requires app { key.now.app < length catalogue.now }
    requires resolved { differentials.now ≡ resolved_at catalogue.now key.now.app }
    requires target { HasTarget catalogue.now key.now }
    ensures { IfOk result (IsTableOf catalogue.now key.now) }
{
    match Graph::with_differentials(alloc, catalogue, key, differentials)? {
        Some(graph) => {
            let _within = graph.target();
            let _numbered = graph.doors();
            let _nearing = graph.differs();
            solve(alloc, &graph)
        }
        None => unreachable!(),
    }
}

/// Makes the table of a track that has a target.
///
/// Differentials that are resolved are used if they are those of the track's app, and else are those afterwards; there
/// are none after an error.
pub(crate) fn new_table(
    resolved: &mut Option<Resolved>,
    alloc: Global,
    catalogue: &Catalogue,
    key: &TrackKey,
) -> Result<Certified, AllocError>
    requires target { HasTarget catalogue.now key.now }
    requires resolved { IfSome resolved.old (λ known. known.differentials ≡ resolved_at catalogue.now known.app) }
    ensures table { IfOk result (IsTableOf catalogue.now key.now) }
    ensures resolved { IfSome resolved.new (λ known. known.differentials ≡ resolved_at catalogue.now known.app) }
{
    let own = resolved_for(resolved.take(), alloc, catalogue, key.app)?;
    let table = table_by(alloc, catalogue, &own.differentials, key);
    *resolved = Some(own);
    table
}
