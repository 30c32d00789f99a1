//! The tables of pinned clients, of which no edition has one.

ghost use Rattle.std.specs.Prelude.{◌≡◌, ◌≢◌, ◌+◌, [], All, Contains, false, true, IfOk, MatchOption, OnOk, length};
ghost use Rattle.std.specs.List.{AllZip};
ghost use Rattle.cohorts.specs.Offers.{is_any};
ghost use Rattle.par_tables.specs.Caches.{AreOwnTables};
ghost use Rattle.par_tables.specs.Places.{HasOtherKey};
ghost use Rattle.replies.specs.Clients.{IsAssigned};
ghost use Rattle.replies.specs.Pinned.{AddsKey, ArePinnedKeys, key_in, key_pinned};
ghost use Rattle.replies.specs.Plans.{ArePinnedTables};

use crate::checks::wants_update;
use crate::client::Assignment;
use catalogue::Catalogue;
use cohorts::Pin;
use omaha_json::{AppAsk, Request};
use par_tables::{TableCache, has_target};
use payload_graph::TrackKey;
use price_cert::Certified;
use std::alloc::{AllocError, Global};

/// Whether a pin allows any version.
pub(crate) fn is_any(pin: &Pin) -> bool
    ensures { result ≡ is_any pin.now }
{
    match pin {
        Pin::Any => true,
        _ => false,
    }
}

// The key of a client's track, if the client is pinned and wants an update.
fn pinned_key(ask: &AppAsk, client: Option<Assignment>) -> Option<TrackKey>
    ensures { result ≡ key_pinned ask.now client }
{
    if !wants_update(ask) {
        return None;
    }
    let assignment = client?;
    if is_any(&assignment.key.pin) {
        return None;
    }
    Some(assignment.key)
}

fn is_among(keys: &[TrackKey], key: &TrackKey) -> bool
    ensures found { result ≡ true → Contains keys.now key.now }
    ensures other { result ≡ false → All (λ other. other ≢ key.now) keys.now }
{
    for index in 0..keys.len() {
        if keys[index] == *key {
            return true;
        }
    }
    false
}

// Adds a key, if its track has a target and it isn't there yet.
fn push_key(
    keys: &mut Vec<TrackKey>,
    catalogue: &Catalogue,
    key: Option<TrackKey>,
) -> Result<(), AllocError>
    ensures { OnOk result (AddsKey catalogue.now key keys.old.items keys.new.items) }
{
    if let Some(key) = key {
        if has_target(catalogue, &key) && !is_among(keys, &key) {
            keys.extend_from_slice(&[key])?;
        }
    }
    Ok(())
}

// The key of a client of the app at an index.
fn key_in_app(app: usize, ask: &AppAsk, client: Option<Assignment>) -> Option<TrackKey>
    ensures { result ≡ key_in app (key_pinned ask.now client) }
{
    let key = pinned_key(ask, client)?;
    if key.app == app { Some(key) } else { None }
}

// Adds the keys of the clients of the next app.
fn push_app(
    keys: &mut Vec<TrackKey>,
    catalogue: &Catalogue,
    request: &Request,
    clients: &[Option<Assignment>],
    app: usize,
) -> Result<(), AllocError>
    requires assigned { AllZip (IsAssigned catalogue.now request.now.session) request.now.apps clients.now }
    requires before { ArePinnedKeys catalogue.now request.now.session request.now.apps app [] keys.old.items }
    ensures { OnOk result (ArePinnedKeys catalogue.now request.now.session request.now.apps (app + 1) [] keys.new.items) }
{
    let asks = request.apps.as_slice();
    for (index, ask) in asks.iter().enumerate() {
        let key = key_in_app(app, ask, clients[index]);
        push_key(keys, catalogue, key)?;
    }
    Ok(())
}

// The keys of the tracks of pinned clients that want an update, each of them once, by their apps.
fn pinned_keys(
    alloc: Global,
    catalogue: &Catalogue,
    request: &Request,
    clients: &[Option<Assignment>],
) -> Result<Vec<TrackKey>, AllocError>
    requires { AllZip (IsAssigned catalogue.now request.now.session) request.now.apps clients.now }
    ensures { IfOk result (λ keys. ArePinnedKeys catalogue.now request.now.session request.now.apps (length catalogue.now) [] keys.items) }
{
    let mut keys = Vec::new(alloc);
    for app in 0..catalogue.apps().len() {
        push_app(&mut keys, catalogue, request, clients, app)?;
    }
    Ok(keys)
}

// rule: Tables of a plan
/// Finds or makes the tables of the tracks of pinned clients that want an update, each of them once.
pub(crate) fn pinned_tables(
    alloc: Global,
    catalogue: &Catalogue,
    request: &Request,
    clients: &[Option<Assignment>],
    kept: &mut TableCache,
) -> Result<Vec<Certified>, AllocError>
    requires assigned { AllZip (IsAssigned catalogue.now request.now.session) request.now.apps clients.now }
    requires kept { AreOwnTables catalogue.now kept.old.tables }
    ensures tables { IfOk result (λ tables. ArePinnedTables catalogue.now request.now.session request.now.apps tables.items) }
    ensures kept { AreOwnTables catalogue.now kept.new.tables }
{
    let keys = pinned_keys(alloc, catalogue, request, clients)?;
    let tables = kept.tables_of(alloc, catalogue, keys.as_slice())?;
    Ok(tables)
}

/// Finds the table of a key.
pub(crate) fn find_pinned<'a>(tables: &'a [Certified], key: &TrackKey) -> Option<&'a Certified>
    ensures { MatchOption result (All (HasOtherKey key.now) tables.now)
        (λ table. Contains tables.now table.now × (table.now.net.key ≡ key.now)) }
{
    for index in 0..tables.len() {
        let table = &tables[index];
        if table.key() == *key {
            return Some(table);
        }
    }
    None
}
