//! Writes a request: from its record to its bytes.

ghost use Rattle.std.specs.Prelude.{◌≡◌, IfOk, OnOk, codes, option_map};
ghost use Rattle.serde_json.specs.Data.{string, put as with_member};
ghost use Rattle.serde_json.specs.View.{view, members_view};
ghost use Rattle.omaha_json.specs.RequestReading.{request_of_bytes};
ghost use Rattle.omaha_json.specs.RequestWriting.{IsWritable, blanks, events_data, ping_data, check_data, packages_data, ask_data, asks_data, request_data, request_bytes, with_ask, with_some};

use crate::request::{AppAsk, Check, Request};
use serde_json::{Map, Value, json, put};
use std::alloc::{AllocError, Global};

fn put_string(
    members: &mut Map<String, Value>,
    alloc: Global,
    name: &str,
    text: &str,
) -> Result<(), AllocError>
    ensures { OnOk result (members_view members.new.entries
        ≡ with_member name.now (string text.now) (members_view members.old.entries)) }
{
    let value = Value::try_from_str(alloc, text)?;
    put(members, alloc, name, value)?;
    Ok(())
}

fn blank_values(alloc: Global, count: usize) -> Result<Value, AllocError>
    ensures { IfOk result (λ json. view json ≡ blanks count) }
{
    let mut blanks = Vec::with_capacity(alloc, count)?;
    for _blank in 0..count {
        blanks.push(json!(in alloc; {})?)?;
    }
    Ok(Value::Array(blanks))
}

fn put_events(
    members: &mut Map<String, Value>,
    alloc: Global,
    events: usize,
) -> Result<(), AllocError>
    ensures { OnOk result (members_view members.new.entries
        ≡ with_some (codes "event") (events_data events) (members_view members.old.entries)) }
{
    if events == 0 {
        return Ok(());
    }
    let blanks = blank_values(alloc, events)?;
    put(members, alloc, "event", blanks)?;
    Ok(())
}

fn put_ping(members: &mut Map<String, Value>, alloc: Global, sent: bool) -> Result<(), AllocError>
    ensures { OnOk result (members_view members.new.entries
        ≡ with_some (codes "ping") (ping_data sent) (members_view members.old.entries)) }
{
    if !sent {
        return Ok(());
    }
    let ping = json!(in alloc; {})?;
    put(members, alloc, "ping", ping)?;
    Ok(())
}

fn check_value(alloc: Global, check: &Check) -> Result<Value, AllocError>
    ensures { IfOk result (λ json. view json ≡ check_data check.now) }
{
    json!(in alloc; {
        "rollback_allowed": check.rollback,
        "targetversionprefix": check.prefix.as_str(),
        "updatedisabled": check.disabled
    })
}

fn put_check(
    members: &mut Map<String, Value>,
    alloc: Global,
    check: Option<&Check>,
) -> Result<(), AllocError>
    ensures { OnOk result (members_view members.new.entries
        ≡ with_some (codes "updatecheck") (option_map check_data (option_map (λ check. check.now) check.entry))
        (members_view members.old.entries)) }
{
    let Some(check) = check else {
        return Ok(());
    };
    let check = check_value(alloc, check)?;
    put(members, alloc, "updatecheck", check)?;
    Ok(())
}

fn put_packages(members: &mut Map<String, Value>, alloc: Global, fp: &str) -> Result<(), AllocError>
    ensures { OnOk result (members_view members.new.entries
        ≡ with_member (codes "packages") (packages_data fp.now) (members_view members.old.entries)) }
{
    let packages = json!(in alloc; { "package": [{ "fp": fp }] })?;
    put(members, alloc, "packages", packages)?;
    Ok(())
}

fn put_ask(members: &mut Map<String, Value>, alloc: Global, ask: &AppAsk) -> Result<(), AllocError>
    ensures { OnOk result (members_view members.new.entries ≡ with_ask ask.now (members_view members.old.entries)) }
{
    put_string(members, alloc, "appid", ask.appid.as_str())?;
    put_string(members, alloc, "cohort", ask.cohort.as_str())?;
    put_string(members, alloc, "cohorthint", ask.hint.as_str())?;
    put_events(members, alloc, ask.events)?;
    put_packages(members, alloc, ask.fp.as_str())?;
    put_ping(members, alloc, ask.ping)?;
    put_check(members, alloc, ask.check.as_ref())?;
    put_string(members, alloc, "version", ask.version.as_str())
}

fn ask_value(alloc: Global, ask: &AppAsk) -> Result<Value, AllocError>
    ensures { IfOk result (λ json. view json ≡ ask_data ask.now) }
{
    let mut app = Map::new(alloc);
    put_ask(&mut app, alloc, ask)?;
    Ok(Value::Object(app))
}

fn asks_value(alloc: Global, asks: &[AppAsk]) -> Result<Value, AllocError>
    ensures { IfOk result (λ json. view json ≡ asks_data asks.now) }
{
    let mut apps = Vec::with_capacity(alloc, asks.len())?;
    for ask in asks {
        apps.push(ask_value(alloc, ask)?)?;
    }
    Ok(Value::Array(apps))
}

#[tactic(auto, unfolding(crate::specs::RequestWriting::request_data))]
fn request_value(alloc: Global, request: &Request) -> Result<Value, AllocError>
    ensures { IfOk result (λ json. view json ≡ request_data request.now) }
{
    let apps = asks_value(alloc, request.apps.as_slice())?;
    json!(in alloc; {
        "request": {
            "app": apps,
            "protocol": "3.1",
            "sessionid": request.session.as_str()
        }
    })
}

// rule: Bytes of a request
/// Writes a request of the Omaha protocol 3.1, JSON form.
///
/// The request is JSON with no space in it, its members in byte order of their names. It has at most
/// 256 apps, each with an identifier of 1 to 256 bytes: what a server accepts. `omaha_json`'s
/// `read_request` gives the same record back.
pub fn write_request(alloc: Global, request: &Request) -> Result<Vec<u8>, AllocError>
    requires { IsWritable request.now }
    ensures text { IfOk result (λ text. text.items ≡ request_bytes request.now) }
    ensures reads_back { IfOk result (λ text. request_of_bytes text.items ≡ Ok request.now) }
{
    let value = request_value(alloc, request)?;
    let text = value.to_vec(alloc)?;
    Ok(text)
}
