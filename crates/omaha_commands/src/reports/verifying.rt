//! Whether a certificate is valid.

ghost use Rattle.std.specs.Prelude.{◌≡◌, ◌<◌, IfErr, IfOk, IfSome, Ok, Err, length};
ghost use Rattle.catalogue.specs.Lookups.{releases_at};
ghost use Rattle.cohorts.specs.declared.pin.Pin.TheVariants as pin;
ghost use Rattle.payload_graph.specs.Net.{net_among};
ghost use Rattle.certificates.specs.Strings.{spelled_at};
ghost use Rattle.editions.specs.Editions.{content_of};
ghost use Rattle.omaha_commands.specs.Certificates.{IsJudged, Verifies, table_net};

use crate::reports::checking::check_parallel;
use crate::reports::tables::table_of;
use catalogue::Catalogue;
use certificates::{Fault, read_key, read_prices};
use editions::Edition;
use payload_graph::{Graph, TrackKey};
use std::alloc::{AllocError, Global};
use std::thread::Threads;
use values::{ReadError, Text};

// The version of a release, as it was added.
fn spelled_at(
    alloc: Global,
    catalogue: &Catalogue,
    app: usize,
    row: usize,
) -> Result<Text, AllocError>
    requires { app < length catalogue.now }
    ensures { IfOk result (λ text. text ≡ spelled_at (releases_at catalogue.now app) row) }
{
    match catalogue.releases(app).get(row) {
        Some(release) => release.spelled.clone(),
        None => Text::copy_of(alloc, ""),
    }
}

// The graph that the table of a key is of, `None` if there is no table; the key's clients have no pin.
fn graph_of(alloc: Global, edition: &Edition, key: &TrackKey) -> Result<Option<Graph>, AllocError>
    requires { key.now.pin ≡ pin.Any }
    ensures net { IfOk result (λ graph. graph ≡ table_net (content_of edition.now) key.now) }
    ensures key { IfOk result (λ graph. IfSome graph (λ net. net.key ≡ key.now)) }
{
    let Some(_table) = table_of(edition, key) else {
        return Ok(None);
    };
    Graph::of_track(alloc, edition.catalogue(), key)
}

// What a certificate is found to be, of the graph of its track.
fn judge<R: Threads + Sync>(
    rt: &R,
    alloc: Global,
    catalogue: &Catalogue,
    graph: &Graph,
    text: &[u8],
) -> Result<(), ReadError<Fault>>
    requires graph { net_among catalogue.now graph.now.key ≡ Some graph.now }
    requires pin { graph.now.key.pin ≡ pin.Any }
    ensures ok { IfOk result (λ done. IsJudged catalogue.now graph.now text.now (Ok done)) }
    ensures err { IfErr result (λ error. IsJudged catalogue.now graph.now text.now (Err error)) }
{
    let app = graph.key().app;
    let prices = read_prices(alloc, catalogue, graph, text)?;
    match check_parallel(rt, graph, prices) {
        Ok(_) => Ok(()),
        Err((wrong, _)) => {
            let release = spelled_at(alloc, catalogue, app, wrong.row)?;
            Err(ReadError::Fault(Fault::Wrong(release, wrong.rule)))
        }
    }
}

// rule: Valid certificate
/// Checks a certificate against the track that it names.
///
/// Fails, in this order, with the first wrong line among the first five; `NoTrack` if the edition has no
/// table of that track; the first wrong line of the others; and the first wrong row from the highest
/// version, with the first rule that it breaks. Two threads may check the rows.
pub fn verify<R: Threads + Sync>(
    rt: &R,
    alloc: Global,
    edition: &Edition,
    text: &[u8],
) -> Result<(), ReadError<Fault>>
    ensures ok { IfOk result (λ done. Verifies (content_of edition.now) text.now (Ok done)) }
    ensures err { IfErr result (λ error. Verifies (content_of edition.now) text.now (Err error)) }
{
    let catalogue = edition.catalogue();
    let key = match read_key(catalogue, text) {
        Ok(key) => key,
        Err(fault) => return Err(ReadError::Fault(fault)),
    };
    match graph_of(alloc, edition, &key)? {
        Some(graph) => judge(rt, alloc, catalogue, &graph, text),
        None => Err(ReadError::Fault(Fault::NoTrack)),
    }
}
