//! What is chosen for each app of a request.

ghost use Rattle.std.specs.Prelude.{◌≡◌, ◌<◌, false, true, All, IfOk, IfSome, Some, length, option_map};
ghost use Rattle.std.specs.List.{AllZip};
ghost use Rattle.catalogue.specs.Lookups.{diffs_at, releases_at};
ghost use Rattle.cohorts.specs.Offers.{is_any};
ghost use Rattle.payload_graph.specs.Chains.{bytes_of};
ghost use Rattle.payload_graph.specs.Places.{IsWithin};
ghost use Rattle.payload_graph.specs.Net.{net_among};
ghost use Rattle.par_tables.specs.Caches.{AreOwnTables};
ghost use Rattle.price_cert.specs.Tables.{Certificate};
ghost use Rattle.editions.specs.Editions.{content_of, IsTrackKey};
ghost use Rattle.replies.specs.Clients.{IsAssigned, IsClient};
ghost use Rattle.replies.specs.Pinned.{key_pinned};
ghost use Rattle.replies.specs.Plans.{ArePinnedTables, HasTable, IsAssignedChoice, IsChoiceAmong, IsPlan, IsPlanOf, IsTrackChoice};

use crate::checks::wants_update;
use crate::choices::{Choice, Plan};
use crate::client::{Assignment, assign_each};
use crate::pinned::{find_pinned, is_any, pinned_tables};
use catalogue::{App, Catalogue};
use editions::Edition;
use omaha_json::{AppAsk, Request};
use par_tables::TableCache;
use payload_graph::{Payload, Place, TrackKey, place_of};
use price_cert::Certified;
use quotes::{Quote, quote_from};
use std::alloc::{AllocError, Global};
use values::Items;

// rule: Requested bytes
fn bytes_of(app: &App, payload: Payload) -> u64
    ensures { result ≡ bytes_of app.now payload }
{
    match payload {
        Payload::Full(release) => match app.releases.as_slice().get(release) {
            Some(there) => there.size,
            None => 0,
        },
        Payload::Differ(index) => match app.diffs.as_slice().get(index) {
            Some(there) => there.get().size,
            None => 0,
        },
    }
}

// rule: No update
// The first payload of a chain of the least sum, by the track's table.
fn choose_by(
    catalogue: &Catalogue,
    key: &TrackKey,
    place: &Place,
    table: &Certified,
) -> Option<Choice>
    requires app { key.now.app < length catalogue.now }
    requires table { net_among catalogue.now key.now ≡ Some table.now.net }
    requires place { IsWithin (releases_at catalogue.now key.now.app) place.now }
    ensures { IsChoiceAmong catalogue.now key.now place.now result }
{
    match quote_from(catalogue, key, place, table) {
        Quote::Next { payload, .. } => Some(Choice {
            payload,
            bytes: bytes_of(&catalogue.apps()[key.app], payload),
        }),
        Quote::Here | Quote::NoChain => None,
    }
}

// What a client of a track that wants an update is offered, by the track's table, if the track has a target.
fn choose_for(
    catalogue: &Catalogue,
    key: &TrackKey,
    ask: &AppAsk,
    table: Option<&Certified>,
) -> Option<Choice>
    requires app { key.now.app < length catalogue.now }
    requires table { option_map (λ table. table.now.net) table ≡ net_among catalogue.now key.now }
    ensures { IsTrackChoice catalogue.now key.now ask.now result }
{
    let place = place_of(catalogue, key.app, ask.fp.as_str(), ask.version.as_str());
    match table {
        Some(table) => choose_by(catalogue, key, &place, table),
        None => None,
    }
}

// The table of a track: an edition has that of clients without a pin.
fn find_table<'a>(
    edition: &'a Edition,
    tables: &'a [Certified],
    key: &TrackKey,
) -> Option<&'a Certified>
    requires unpinned { is_any key.now.pin ≡ true → IsTrackKey (content_of edition.now) key.now }
    requires pinned { is_any key.now.pin ≡ false → HasTable (content_of edition.now) tables.now key.now }
    requires own { All (λ (table : Certificate). net_among (content_of edition.now) table.net.key ≡ Some table.net) tables.now }
    ensures { option_map (λ table. table.now.net) result ≡ net_among (content_of edition.now) key.now }
{
    if is_any(&key.pin) {
        edition.table(key)
    } else {
        find_pinned(tables, key)
    }
}

// rule: Chosen payload
// What is chosen for the client that asks for an app.
fn choose_app(
    edition: &Edition,
    tables: &[Certified],
    ask: &AppAsk,
    client: Option<Assignment>,
) -> Option<Choice>
    requires assigned { IsClient (content_of edition.now) ask.now client }
    requires table { IfSome (key_pinned ask.now client) (HasTable (content_of edition.now) tables.now) }
    requires own { All (λ (table : Certificate). net_among (content_of edition.now) table.net.key ≡ Some table.net) tables.now }
    ensures { IsAssignedChoice (content_of edition.now) ask.now client result }
{
    let Assignment { key, .. } = client?;
    if !wants_update(ask) {
        return None;
    }
    let table = find_table(edition, tables, &key);
    choose_for(edition.catalogue(), &key, ask, table)
}

// What is chosen for each app of a request.
fn choose_each(
    alloc: Global,
    edition: &Edition,
    tables: &[Certified],
    request: &Request,
    clients: &[Option<Assignment>],
) -> Result<Vec<Option<Choice>>, AllocError>
    requires assigned { AllZip (IsAssigned (content_of edition.now) request.now.session) request.now.apps clients.now }
    requires tables { ArePinnedTables (content_of edition.now) request.now.session request.now.apps tables.now }
    ensures { IfOk result (λ choices. IsPlan (content_of edition.now) request.now choices.items) }
{
    let asks = request.apps.as_slice();
    let mut choices = Vec::with_capacity(alloc, asks.len())?;
    for (index, ask) in asks.iter().enumerate() {
        let choice = choose_app(edition, tables, ask, clients[index]);
        choices.push(choice)?;
    }
    Ok(choices)
}

/// Assigns the client of each app of a request to its track, and chooses what it is offered.
///
/// For an app that the catalogue has and that wants an update this is the first payload of a chain of
/// permitted payloads to the target of the client's track that has the least sum of bytes; of all such
/// payloads the one that leads highest, and of two of these the differential. It is nothing at the target
/// and if no chain leads there, for example if the track has no target. The table of a pinned client's track
/// is made here, one for all apps with the same track and pin.
pub fn plan(alloc: Global, edition: &Edition, request: &Request) -> Result<Plan, AllocError>
    ensures { IfOk result (λ plan. IsPlanOf (content_of edition.now) request.now plan) }
{
    let mut none = TableCache::new(0);
    plan_with(alloc, edition, request, &mut none)
}

// rule: Cached tables
/// Makes the plan that `plan` makes, with the tables of pinned clients' tracks that are kept of the same edition.
///
/// Of a track that has a table there none is made. A table that is made is kept, unless memory runs out for that.
pub fn plan_with(
    alloc: Global,
    edition: &Edition,
    request: &Request,
    kept: &mut TableCache,
) -> Result<Plan, AllocError>
    requires { AreOwnTables (content_of edition.now) kept.old.tables }
    ensures plan { IfOk result (λ plan. IsPlanOf (content_of edition.now) request.now plan) }
    ensures kept { AreOwnTables (content_of edition.now) kept.new.tables }
{
    let catalogue = edition.catalogue();
    let clients = assign_each(alloc, catalogue, request)?;
    let tables = pinned_tables(alloc, catalogue, request, &clients, kept)?;
    let choices = choose_each(alloc, edition, &tables, request, &clients)?;
    Ok(Plan {
        clients: Items::new(clients),
        choices: Items::new(choices),
        tables: Items::new(tables),
    })
}
