//! Reads a reply: from its bytes to its record.
//!
//! A member of another type than the expected one counts as missing.

ghost use Rattle.std.specs.Prelude.{◌≡◌, IfOk, option_map, is_some};
ghost use Rattle.std.specs.Option.{ok_or};
ghost use Rattle.values.specs.Reading.{Reads};
ghost use Rattle.serde_json.specs.View.{view, items_view};
ghost use Rattle.omaha_json.specs.Members.{string_or_empty_at, object_at};
ghost use Rattle.omaha_json.specs.RequestReading.{json_of, event_count_of};
ghost use Rattle.omaha_json.specs.declared.client.fault.ReplyFault.TheVariants.{BadOffer};
ghost use Rattle.omaha_json.specs.ReplyReading.{string_at, count_at, size_at, hash_at, first_string, only_item, address_of, package_of, part_of, full_of, names_diff, diff_address, diff_of, offer_of, check_of, optional_check, known_with, known_of, state_with, app_of, apps_from, apps_of, daystart_at, reply_of, after_guard, reply_of_bytes};

use crate::client::fault::ReplyFault;
use crate::reply::{AppReply, AppState, CheckReply, KnownApp, Offer, Part, Reply};
use hex::FromHex;
use serde_json::{Category, Value};
use std::alloc::{AllocError, Global};
use values::{Items, ReadError, Text};

const SCRIPT_GUARD: &[u8; 4] = b")]}'";

const MAX_SIZE: u64 = 1 << 40;

fn invalid_offer(index: usize) -> ReadError<ReplyFault>
    ensures { result ≡ ReadError.Fault (BadOffer index) }
{
    ReadError::Fault(ReplyFault::BadOffer { index })
}

// Borrows a member that is a string.
fn string_member<'v>(json: &'v Value, name: &str) -> Option<&'v str>
    ensures { option_map (λ text. text.now) result ≡ string_at name.now (view json.now) }
{
    json.get(name).and_then(Value::as_str)
}

// Borrows a member that is a string, or the empty string.
fn string_or_empty<'v>(json: &'v Value, name: &str) -> &'v str
    ensures { result.now ≡ string_or_empty_at name.now (view json.now) }
{
    json.get(name).and_then(Value::as_str).unwrap_or("")
}

// Borrows a member that is an object.
fn object_member<'v>(json: &'v Value, name: &str) -> Option<&'v Value>
    ensures { option_map (λ member. view member.now) result ≡ object_at name.now (view json.now) }
{
    match json.get(name) {
        Some(member) if member.is_object() => Some(member),
        _ => None,
    }
}

fn count_member(json: &Value, name: &str) -> u64
    ensures { result ≡ count_at name.now (view json.now) }
{
    json.get(name).and_then(Value::as_u64).unwrap_or(0)
}

fn read_size(json: &Value, name: &str) -> Option<u64>
    ensures { result ≡ size_at name.now (view json.now) }
{
    match json.get(name).and_then(Value::as_u64) {
        Some(size) if size > 0 && size <= MAX_SIZE => Some(size),
        _ => None,
    }
}

fn read_hash(json: &Value, name: &str) -> Option<[u8; 32]>
    ensures { result ≡ hash_at name.now (view json.now) }
{
    <[u8; 32] as FromHex>::from_hex(string_member(json, name)?).ok()
}

fn find_string<'v>(items: &'v [Value], name: &str) -> Option<&'v str>
    ensures { option_map (λ text. text.now) result
        ≡ first_string name.now (items_view items.now) }
{
    for item in items {
        if let Some(text) = string_member(item, name) {
            return Some(text);
        }
    }
    None
}

// rule: Address in a reply
fn find_address<'v>(update: &'v Value, name: &str) -> Option<&'v str>
    ensures { option_map (λ text. text.now) result ≡ address_of name.now (view update.now) }
{
    let urls = update.get("urls")?.get("url")?.as_array()?;
    find_string(urls, name)
}

fn only_item(items: &[Value]) -> Option<&Value>
    ensures { option_map (λ found. view found.now) result ≡ only_item (items_view items.now) }
{
    if items.len() == 1 {
        Some(&items[0])
    } else {
        None
    }
}

fn find_package(manifest: &Value) -> Option<&Value>
    ensures { option_map (λ found. view found.now) result ≡ package_of (view manifest.now) }
{
    let packages = manifest.get("packages")?.get("package")?.as_array()?;
    only_item(packages)
}

#[tactic(auto, unfolding(crate::specs::ReplyReading::part_of))]
fn read_part(
    alloc: Global,
    index: usize,
    codebase: &str,
    json: &Value,
    name: &str,
    size: &str,
    hash: &str,
) -> Result<Part, ReadError<ReplyFault>>
    ensures { Reads (λ part. part) result
        (part_of index codebase.now (view json.now) name.now size.now hash.now) }
{
    let Some(name) = string_member(json, name) else {
        return Err(invalid_offer(index));
    };
    let Some(size) = read_size(json, size) else {
        return Err(invalid_offer(index));
    };
    let Some(hash) = read_hash(json, hash) else {
        return Err(invalid_offer(index));
    };
    Ok(Part {
        codebase: Text::copy_of(alloc, codebase)?,
        name: Text::copy_of(alloc, name)?,
        size,
        hash,
    })
}

#[tactic(auto, unfolding(crate::specs::ReplyReading::full_of))]
fn read_full(
    alloc: Global,
    index: usize,
    update: &Value,
    json: &Value,
) -> Result<Part, ReadError<ReplyFault>>
    ensures { Reads (λ part. part) result
        (full_of index (view update.now) (view json.now)) }
{
    let Some(codebase) = find_address(update, "codebase") else {
        return Err(invalid_offer(index));
    };
    read_part(alloc, index, codebase, json, "name", "size", "hash_sha256")
}

fn names_diff(json: &Value) -> bool
    ensures { result ≡ names_diff (view json.now) }
{
    json.get("namediff").is_some()
        && json.get("sizediff").is_some()
        && json.get("hashdiff_sha256").is_some()
}

fn find_diff_address<'v>(update: &'v Value, json: &Value) -> Option<&'v str>
    ensures { option_map (λ text. text.now) result
        ≡ diff_address (view update.now) (view json.now) }
{
    if names_diff(json) {
        find_address(update, "codebasediff")
    } else {
        None
    }
}

// rule: Differential in a reply
fn read_diff(
    alloc: Global,
    index: usize,
    update: &Value,
    json: &Value,
) -> Result<Option<Part>, ReadError<ReplyFault>>
    ensures { Reads (λ part. part) result
        (diff_of index (view update.now) (view json.now)) }
{
    let Some(codebase) = find_diff_address(update, json) else {
        return Ok(None);
    };
    let part = read_part(
        alloc,
        index,
        codebase,
        json,
        "namediff",
        "sizediff",
        "hashdiff_sha256",
    )?;
    Ok(Some(part))
}

// rule: Offer that is read
#[tactic(auto, unfolding(crate::specs::ReplyReading::offer_of))]
fn read_offer(alloc: Global, index: usize, update: &Value) -> Result<Offer, ReadError<ReplyFault>>
    ensures { Reads (λ offer. offer) result (offer_of index (view update.now)) }
{
    let Some(manifest) = update.get("manifest") else {
        return Err(invalid_offer(index));
    };
    let Some(version) = string_member(manifest, "version") else {
        return Err(invalid_offer(index));
    };
    let Some(json) = find_package(manifest) else {
        return Err(invalid_offer(index));
    };
    let Some(fp) = string_member(json, "fp") else {
        return Err(invalid_offer(index));
    };
    let full = read_full(alloc, index, update, json)?;
    let diff = read_diff(alloc, index, update, json)?;
    let version = Text::copy_of(alloc, version)?;
    let fp = Text::copy_of(alloc, fp)?;
    Ok(Offer {
        version,
        fp,
        full,
        diff,
    })
}

fn read_check(
    alloc: Global,
    index: usize,
    update: &Value,
) -> Result<CheckReply, ReadError<ReplyFault>>
    ensures { Reads (λ reply. reply) result (check_of index (view update.now)) }
{
    match string_or_empty(update, "status") {
        "ok" => {
            let offer = read_offer(alloc, index, update)?;
            Ok(CheckReply::Offered(offer))
        }
        "noupdate" => Ok(CheckReply::NoUpdate),
        "error-internal" => Ok(CheckReply::Internal),
        _ => Ok(CheckReply::Other),
    }
}

fn read_optional_check(
    alloc: Global,
    index: usize,
    update: Option<&Value>,
) -> Result<Option<CheckReply>, ReadError<ReplyFault>>
    ensures { Reads (λ reply. reply) result
        (optional_check index (option_map (λ json. view json.now) update.entry)) }
{
    let Some(update) = update else {
        return Ok(None);
    };
    let reply = read_check(alloc, index, update)?;
    Ok(Some(reply))
}

fn count_events(app: &Value) -> usize
    ensures { result ≡ event_count_of (view app.now) }
{
    match app.get("event").and_then(Value::as_array) {
        Some(events) => events.len(),
        None => 0,
    }
}

fn copy_known(alloc: Global, app: &Value, check: Option<CheckReply>) -> Result<KnownApp, AllocError>
    ensures { IfOk result (λ known. known ≡ known_with (view app.now) check) }
{
    Ok(KnownApp {
        cohort: Text::copy_of(alloc, string_or_empty(app, "cohort"))?,
        name: Text::copy_of(alloc, string_or_empty(app, "cohortname"))?,
        ping: object_member(app, "ping").is_some(),
        events: count_events(app),
        check,
    })
}

fn read_known(alloc: Global, index: usize, app: &Value) -> Result<AppState, ReadError<ReplyFault>>
    ensures { Reads (λ state. state) result (known_of index (view app.now)) }
{
    let check = read_optional_check(alloc, index, app.get("updatecheck"))?;
    let known = copy_known(alloc, app, check)?;
    Ok(AppState::Known(known))
}

fn read_state(
    alloc: Global,
    index: usize,
    status: &str,
    app: &Value,
) -> Result<AppState, ReadError<ReplyFault>>
    ensures { Reads (λ state. state) result (state_with index status.now (view app.now)) }
{
    match status {
        "ok" => read_known(alloc, index, app),
        "error-unknownApplication" => Ok(AppState::Unknown),
        _ => Ok(AppState::Other),
    }
}

#[tactic(auto, unfolding(crate::specs::ReplyReading::app_of))]
fn read_app(alloc: Global, index: usize, app: &Value) -> Result<AppReply, ReadError<ReplyFault>>
    ensures { Reads (λ reply. reply) result (app_of index (view app.now)) }
{
    let Some(appid) = string_member(app, "appid") else {
        return Err(invalid_offer(index));
    };
    let Some(status) = string_member(app, "status") else {
        return Err(invalid_offer(index));
    };
    let state = read_state(alloc, index, status, app)?;
    let appid = Text::copy_of(alloc, appid)?;
    Ok(AppReply { appid, state })
}

fn read_listed(alloc: Global, apps: &[Value]) -> Result<Vec<AppReply>, ReadError<ReplyFault>>
    ensures { Reads (λ replies. replies.items) result (apps_from 0 (items_view apps.now)) }
{
    let mut replies = Vec::new(alloc);
    for (index, app) in apps.iter().enumerate() {
        let reply = read_app(alloc, index, app)?;
        replies.push(reply)?;
    }
    Ok(replies)
}

#[tactic(auto, unfolding(crate::specs::ReplyReading::apps_of))]
fn read_apps(
    alloc: Global,
    listed: Option<&Value>,
) -> Result<Items<AppReply>, ReadError<ReplyFault>>
    ensures { Reads (λ replies. replies) result
        (apps_of (option_map (λ apps. view apps.now) listed.entry)) }
{
    let Some(listed) = listed else {
        return Ok(Items::empty(alloc));
    };
    let Some(apps) = listed.as_array() else {
        return Err(invalid_offer(0));
    };
    let replies = read_listed(alloc, apps)?;
    Ok(Items::new(replies))
}

fn daystart_member(response: &Value, name: &str) -> u64
    ensures { result ≡ daystart_at name.now (view response.now) }
{
    match response.get("daystart") {
        Some(daystart) => count_member(daystart, name),
        None => 0,
    }
}

#[tactic(auto, unfolding(crate::specs::ReplyReading::reply_of))]
fn read_json_reply(alloc: Global, json: &Value) -> Result<Reply, ReadError<ReplyFault>>
    ensures { Reads (λ reply. reply) result (reply_of (view json.now)) }
{
    let Some(response) = object_member(json, "response") else {
        return Err(ReadError::Fault(ReplyFault::NoResponse));
    };
    if string_or_empty(response, "protocol") != "3.1" {
        return Err(ReadError::Fault(ReplyFault::BadProtocol));
    }
    let apps = read_apps(alloc, response.get("app"))?;
    let days = daystart_member(response, "elapsed_days");
    let seconds = daystart_member(response, "elapsed_seconds");
    Ok(Reply {
        days,
        seconds,
        apps,
    })
}

// Parses JSON as `serde_json` accepts it.
fn parse_json(alloc: Global, bytes: &[u8]) -> Result<Value, ReadError<ReplyFault>>
    ensures { Reads view result (ok_or (json_of bytes.now) ReplyFault.NotJson) }
{
    match Value::from_slice(alloc, bytes) {
        Ok(json) => Ok(json),
        Err(error) => match error.classify() {
            Category::Memory => Err(ReadError::Memory),
            _ => Err(ReadError::Fault(ReplyFault::NotJson)),
        },
    }
}

// Borrows the bytes after the guard, if they begin with it.
fn strip_guard(bytes: &[u8]) -> Option<&[u8]>
    ensures { option_map (λ rest. rest.now) result ≡ after_guard bytes.now }
{
    bytes.strip_prefix(SCRIPT_GUARD)
}

// rule: Faults of a reply
/// Reads a reply of the Omaha protocol 3.1, JSON form.
///
/// Returns the first fault in the order of `ReplyFault`. The line feed after the first four bytes may
/// be missing. JSON is what `serde_json` accepts: UTF-8, the last of two members of one name, at most
/// 127 levels of arrays and objects. A status that this protocol does not name reads as `Other`, and
/// so does an update check without a status. A differential is read if its three members and an
/// address of it are all there; if they are and one is invalid, so is the offer.
#[tactic(auto, unfolding(crate::specs::ReplyReading::reply_of_bytes))]
pub fn read_reply(alloc: Global, bytes: &[u8]) -> Result<Reply, ReadError<ReplyFault>>
    ensures { Reads (λ reply. reply) result (reply_of_bytes bytes.now) }
{
    let Some(text) = strip_guard(bytes) else {
        return Err(ReadError::Fault(ReplyFault::NoPrefix));
    };
    let json = parse_json(alloc, text)?;
    read_json_reply(alloc, &json)
}
