//! Reads a request: from its bytes to its record.
//!
//! A member of another type than the expected one counts as missing.

ghost use Rattle.std.specs.Prelude.{◌≡◌, IfOk, option_map};
ghost use Rattle.values.specs.Reading.{Reads};
ghost use Rattle.serde_json.specs.View.{view, items_view};
ghost use Rattle.std.specs.Option.{ok_or};
ghost use Rattle.omaha_json.specs.Members.{string_or_empty_at, object_at, true_at};
ghost use Rattle.omaha_json.specs.RequestReading.{json_of, appid_of, first_package, fp_of, check_with, check_of, event_count_of, ask_with, ask_of, asks_from, asks_of, request_of, request_of_bytes};

use crate::fault::RequestFault;
use crate::request::{AppAsk, Check, Request};
use serde_json::{Category, Value};
use std::alloc::{AllocError, Global};
use values::{Items, ReadError, Text};

const MAX_APPS: usize = 256;

const MAX_APPID: usize = 256;

// rule: Missing member
// Borrows a member that is a string, or the empty string.
fn string_or_empty<'v>(json: &'v Value, name: &str) -> &'v str
    ensures { result.now ≡ string_or_empty_at name.now (view json.now) }
{
    json.get(name).and_then(Value::as_str).unwrap_or("")
}

// Borrows a member that is an object.
fn object_member<'v>(json: &'v Value, name: &str) -> Option<&'v Value>
    ensures { option_map (λ member. view member.now) result ≡ object_at name.now (view json.now) }
{
    match json.get(name) {
        Some(member) if member.is_object() => Some(member),
        _ => None,
    }
}

// Whether a member is the JSON value `true`.
fn is_set(json: &Value, name: &str) -> bool
    ensures { result ≡ true_at name.now (view json.now) }
{
    json.get(name).and_then(Value::as_bool).unwrap_or(false)
}

// rule: JSON of a request
// Parses JSON as `serde_json` accepts it.
fn parse_json(alloc: Global, bytes: &[u8]) -> Result<Value, ReadError<RequestFault>>
    ensures { Reads view result (ok_or (json_of bytes.now) RequestFault.NotJson) }
{
    match Value::from_slice(alloc, bytes) {
        Ok(json) => Ok(json),
        Err(error) => match error.classify() {
            Category::Memory => Err(ReadError::Memory),
            _ => Err(ReadError::Fault(RequestFault::NotJson)),
        },
    }
}

// rule: Identifier in a request
fn read_appid(app: &Value) -> Option<&str>
    ensures { option_map (λ id. id.now) result ≡ appid_of (view app.now) }
{
    match app.get("appid").and_then(Value::as_str) {
        Some(id) if !id.is_empty() && id.len() <= MAX_APPID => Some(id),
        _ => None,
    }
}

fn find_package(app: &Value) -> Option<&Value>
    ensures { option_map (λ found. view found.now) result ≡ first_package (view app.now) }
{
    app.get("packages")?.get("package")?.get(0usize)
}

fn read_fp(app: &Value) -> &str
    ensures { result.now ≡ fp_of (view app.now) }
{
    match find_package(app) {
        Some(package) => string_or_empty(package, "fp"),
        None => "",
    }
}

fn read_check(alloc: Global, asked: &Value) -> Result<Check, AllocError>
    ensures { IfOk result (λ check. check ≡ check_with (view asked.now)) }
{
    Ok(Check {
        disabled: is_set(asked, "updatedisabled"),
        rollback: is_set(asked, "rollback_allowed"),
        prefix: Text::copy_of(alloc, string_or_empty(asked, "targetversionprefix"))?,
    })
}

fn read_optional_check(alloc: Global, app: &Value) -> Result<Option<Check>, AllocError>
    ensures { IfOk result (λ check. check ≡ check_of (view app.now)) }
{
    match object_member(app, "updatecheck") {
        Some(asked) => Ok(Some(read_check(alloc, asked)?)),
        None => Ok(None),
    }
}

fn count_events(app: &Value) -> usize
    ensures { result ≡ event_count_of (view app.now) }
{
    match app.get("event").and_then(Value::as_array) {
        Some(events) => events.len(),
        None => 0,
    }
}

// rule: Ask
fn copy_ask(alloc: Global, app: &Value, appid: &str) -> Result<AppAsk, AllocError>
    ensures { IfOk result (λ ask. ask ≡ ask_with (view app.now) appid.now) }
{
    Ok(AppAsk {
        appid: Text::copy_of(alloc, appid)?,
        version: Text::copy_of(alloc, string_or_empty(app, "version"))?,
        fp: Text::copy_of(alloc, read_fp(app))?,
        cohort: Text::copy_of(alloc, string_or_empty(app, "cohort"))?,
        hint: Text::copy_of(alloc, string_or_empty(app, "cohorthint"))?,
        check: read_optional_check(alloc, app)?,
        ping: object_member(app, "ping").is_some(),
        events: count_events(app),
    })
}

#[tactic(auto, unfolding(crate::specs::RequestReading::ask_of))]
fn read_ask(alloc: Global, app: &Value, index: usize) -> Result<AppAsk, ReadError<RequestFault>>
    ensures { Reads (λ ask. ask) result (ask_of index (view app.now)) }
{
    let Some(appid) = read_appid(app) else {
        return Err(ReadError::Fault(RequestFault::BadApp { index }));
    };
    Ok(copy_ask(alloc, app, appid)?)
}

fn read_asks(alloc: Global, apps: &[Value]) -> Result<Vec<AppAsk>, ReadError<RequestFault>>
    ensures { Reads (λ asks. asks.items) result (asks_from 0 (items_view apps.now)) }
{
    let mut asks = Vec::with_capacity(alloc, apps.len().min(MAX_APPS))?;
    for (index, app) in apps.iter().enumerate() {
        let ask = read_ask(alloc, app, index)?;
        asks.push(ask)?;
    }
    Ok(asks)
}

#[tactic(auto, unfolding(crate::specs::RequestReading::asks_of))]
fn read_apps(
    alloc: Global,
    listed: Option<&Value>,
) -> Result<Items<AppAsk>, ReadError<RequestFault>>
    ensures { Reads (λ asks. asks) result
        (asks_of (option_map (λ apps. view apps.now) listed.entry)) }
{
    let Some(listed) = listed else {
        return Ok(Items::empty(alloc));
    };
    let Some(apps) = listed.as_array() else {
        return Err(ReadError::Fault(RequestFault::BadApp { index: 0 }));
    };
    let asks = read_asks(alloc, apps)?;
    if asks.len() > MAX_APPS {
        return Err(ReadError::Fault(RequestFault::TooManyApps));
    }
    Ok(Items::new(asks))
}

#[tactic(auto, unfolding(crate::specs::RequestReading::request_of))]
fn read_json_request(alloc: Global, json: &Value) -> Result<Request, ReadError<RequestFault>>
    ensures { Reads (λ request. request) result (request_of (view json.now)) }
{
    let Some(request) = object_member(json, "request") else {
        return Err(ReadError::Fault(RequestFault::NoRequest));
    };
    if string_or_empty(request, "protocol") != "3.1" {
        return Err(ReadError::Fault(RequestFault::BadProtocol));
    }
    let apps = read_apps(alloc, request.get("app"))?;
    let session = Text::copy_of(alloc, string_or_empty(request, "sessionid"))?;
    Ok(Request { session, apps })
}

// rule: Faults of a request
/// Reads a request of the Omaha protocol 3.1, JSON form.
///
/// Returns the first fault in the order of `RequestFault`; every element of `app` is read before
/// their number is checked. JSON is what `serde_json` accepts: UTF-8, the last of two members of
/// one name, at most 127 levels of arrays and objects. A member of another type than the protocol's
/// counts as missing, except `app` and `appid`.
#[tactic(auto, unfolding(crate::specs::RequestReading::request_of_bytes))]
pub fn read_request(alloc: Global, bytes: &[u8]) -> Result<Request, ReadError<RequestFault>>
    ensures { Reads (λ request. request) result (request_of_bytes bytes.now) }
{
    let json = parse_json(alloc, bytes)?;
    read_json_request(alloc, &json)
}
