//! What a table says of a place.

ghost use Rattle.std.specs.Prelude.{◌≡◌, ◌<◌, IfSome, Some, length, option_and_then, option_map, slice_get};
ghost use Rattle.catalogue.specs.Lookups.{cohorts_at, diffs_at, releases_at};
ghost use Rattle.cohorts.specs.Offers.{track_target};
ghost use Rattle.payload_graph.specs.Places.{IsWithin};
ghost use Rattle.payload_graph.specs.declared.place.Place.TheVariants.{At, Outside};
ghost use Rattle.payload_graph.specs.Net.{net_among};
ghost use Rattle.quotes.specs.Outside.{best_quote, without_differentials};
ghost use Rattle.quotes.specs.Quotes.{payload_named, row_quote, IsQuoteAmong};

use crate::outside::{Best, Visitor, find_best};
use catalogue::{Catalogue, Version};
use cohorts::track_target;
use payload_graph::{Kind, Payload, Place, TrackKey};
use price_cert::{Certified, Row};

/// What the clients of a track at a place are offered.
#[derive(Clone, Copy)]
pub enum Quote {
    /// Nothing: the place is the target.
    Here,
    /// The first payload of a chain of the least sum.
    Next {
        /// The payload.
        payload: Payload,
        /// The sum of the whole chain, in bytes.
        sum: u64,
    },
    /// Nothing: no chain leads from the place to the target.
    NoChain,
}

// The payload that a row names by its kind and its destination.
fn find_payload(
    catalogue: &Catalogue,
    app: usize,
    from: usize,
    kind: Kind,
    to: usize,
) -> Option<Payload>
    requires { app < length catalogue.now }
    ensures { result ≡ payload_named (releases_at catalogue.now app) (diffs_at catalogue.now app) from kind to }
{
    match kind {
        Kind::Full => Some(Payload::Full(to)),
        Kind::Differ => {
            let releases = catalogue.releases(app);
            let start = releases.get(from)?;
            let end = releases.get(to)?;
            let index = catalogue.find_diff(app, &start.version, &end.version)?;
            Some(Payload::Differ(index))
        }
    }
}

fn row_quote(catalogue: &Catalogue, app: usize, from: usize, row: Row) -> Quote
    requires { app < length catalogue.now }
    ensures { result ≡ row_quote (releases_at catalogue.now app) (diffs_at catalogue.now app) from row }
{
    match row {
        Row::Nothing => Quote::NoChain,
        Row::End => Quote::Here,
        Row::Price { price, kind, to } => match find_payload(catalogue, app, from, kind, to) {
            Some(payload) => Quote::Next {
                payload,
                sum: price,
            },
            None => Quote::NoChain,
        },
    }
}

/// Returns what the clients of a track at a release are offered; see `quote_from`.
///
/// The release, given by its index, is one of the track's app.
pub fn quote_at(catalogue: &Catalogue, key: &TrackKey, release: usize, table: &Certified) -> Quote
    requires app { key.now.app < length catalogue.now }
    requires table { net_among catalogue.now key.now ≡ Some table.now.net }
    requires release { release < length (releases_at catalogue.now key.now.app) }
    ensures { IsQuoteAmong catalogue.now key.now (At release) result }
{
    catalogue::version_laws::order();
    payload_graph::laws::fulls();
    payload_graph::laws::differs();
    catalogue.validity();
    let _releases = catalogue.releases(key.app);
    let row = table.rows()[release];
    row_quote(catalogue, key.app, release, row)
}

fn best_quote(best: Option<Best>) -> Quote
    ensures { result ≡ best_quote best }
{
    match best {
        Some(best) => Quote::Next {
            payload: Payload::Full(best.to),
            sum: best.sum,
        },
        None => Quote::NoChain,
    }
}

// The client of a track at a version, if the track has a target.
fn find_visitor<'a>(
    catalogue: &'a Catalogue,
    key: &'a TrackKey,
    version: Version,
) -> Option<Visitor<'a>>
    requires { key.now.app < length catalogue.now }
    ensures target { option_map (λ visitor. visitor.target) result
        ≡ option_and_then (λ cohort. track_target (releases_at catalogue.now key.now.app) cohort key.now.lane key.now.pin) (slice_get (cohorts_at catalogue.now key.now.app) key.now.cohort) }
    ensures cohort { IfSome result (λ visitor.
        slice_get (cohorts_at catalogue.now key.now.app) key.now.cohort ≡ Some visitor.cohort.now) }
    ensures key { IfSome result (λ visitor. visitor.key.now ≡ key.now) }
    ensures version { IfSome result (λ visitor. visitor.version ≡ version) }
{
    let cohort = catalogue.cohorts(key.app).get(key.cohort)?;
    let target = track_target(catalogue.releases(key.app), cohort, key.lane, &key.pin)?;
    Some(Visitor {
        cohort,
        key,
        target,
        version,
    })
}

// A quote at a release as one from outside at its version, unless a differential is offered.
fn without_differentials(quote: Quote) -> Option<Quote>
    ensures { result ≡ without_differentials quote }
{
    match quote {
        Quote::Here => Some(Quote::NoChain),
        Quote::NoChain => Some(Quote::NoChain),
        Quote::Next { payload, sum } => match payload {
            Payload::Full(to) => Some(Quote::Next {
                payload: Payload::Full(to),
                sum,
            }),
            Payload::Differ(_) => None,
        },
    }
}

// What the clients outside at a release's version are offered, if the release's row says it: there is such a release, and
// no differential is offered at it.
fn quote_by_row(
    catalogue: &Catalogue,
    key: &TrackKey,
    version: &Version,
    table: &Certified,
) -> Option<Quote>
    requires app { key.now.app < length catalogue.now }
    requires table { net_among catalogue.now key.now ≡ Some table.now.net }
    ensures { IfSome result (λ quote. IsQuoteAmong catalogue.now key.now (Outside version.now) quote) }
{
    catalogue::version_laws::order();
    catalogue.validity();
    let release = catalogue.find_release(key.app, version)?;
    let quote = quote_at(catalogue, key, release, table);
    without_differentials(quote)
}

fn quote_outside(
    catalogue: &Catalogue,
    key: &TrackKey,
    version: Version,
    table: &Certified,
) -> Quote
    requires app { key.now.app < length catalogue.now }
    requires table { net_among catalogue.now key.now ≡ Some table.now.net }
    ensures { IsQuoteAmong catalogue.now key.now (Outside version) result }
{
    catalogue::version_laws::order();
    payload_graph::laws::fulls();
    payload_graph::laws::differs();
    catalogue.validity();
    if let Some(quote) = quote_by_row(catalogue, key, &version, table) {
        return quote;
    }
    let releases = catalogue.releases(key.app);
    let Some(visitor) = find_visitor(catalogue, key, version) else {
        return Quote::NoChain;
    };
    best_quote(find_best(releases, table.rows(), &visitor))
}

// rule: Quote
/// Returns what the clients of a track at a place are offered.
///
/// `table` is a certified table of the track's graph, and the place is within the track's app. The
/// quote is `Here` exactly at the target and `NoChain` exactly if no chain leads there. Otherwise it is
/// the first payload of a chain of the least sum: of all such payloads the one that leads highest, and of
/// two of these the differential. From a release it looks at one row. From outside it looks at the row of the release of
/// that version, unless there is none or it names a differential. Then it looks once at the row of each release that the
/// version may be led to.
pub fn quote_from(catalogue: &Catalogue, key: &TrackKey, place: &Place, table: &Certified) -> Quote
    requires app { key.now.app < length catalogue.now }
    requires table { net_among catalogue.now key.now ≡ Some table.now.net }
    requires place { IsWithin (releases_at catalogue.now key.now.app) place.now }
    ensures { IsQuoteAmong catalogue.now key.now place.now result }
{
    match place {
        Place::At(release) => quote_at(catalogue, key, *release, table),
        Place::Outside(version) => quote_outside(catalogue, key, *version, table),
    }
}
