//! Writes a reply: from its record to its bytes.
//!
//! Each function sends one part of the reply to a serializer, so no tree of JSON values is made.

ghost use Rattle.std.specs.Prelude.{◌≡◌, ℕ, List, IfOk, OnOk, codes, option_map};
ghost use Rattle.serde_json.specs.Events.{SendsValue, members_len};
ghost use Rattle.omaha_json.specs.ReplyWriting.{IsWritable, acknowledgements, app_data, apps_data, check_data, daystart_data, events_data, known_data, known_members, ping_data, reply_bytes, reply_data, response_data, unknown_data, update_data};
ghost use Rattle.omaha_json.specs.Sending.{SendsOptional};

use crate::offer_writer::send_offer;
use crate::reply::{AppReply, AppState, CheckReply, KnownApp, Reply};
use crate::sending::{send_number, send_status, send_str, send_string};
use serde::{Described, Serialize, Serializer};
use std::alloc::{AllocError, Global};
use values::{Items, Text};

const SCRIPT_GUARD: &[u8; 5] = b")]}'\n";

fn send_check<S: Serializer>(out: &mut S, check: &CheckReply) -> Result<(), S::Error>
    ensures { OnOk result
        (SendsValue (check_data check.now) (S.written out.old) (S.written out.new)) }
{
    match check {
        CheckReply::NoUpdate => send_status(out, "noupdate"),
        CheckReply::Internal => send_status(out, "error-internal"),
        CheckReply::Offered(offer) => send_offer(out, offer),
        CheckReply::Other => out.unit(),
    }
}

fn send_acknowledgements<S: Serializer>(out: &mut S, events: usize) -> Result<(), S::Error>
    ensures { OnOk result
        (SendsValue (acknowledgements events) (S.written out.old) (S.written out.new)) }
{
    out.begin_seq(Some(events))?;
    for _event in 0..events {
        send_status(out, "ok")?;
    }
    out.end_seq()
}

fn send_events<S: Serializer>(out: &mut S, events: usize) -> Result<(), S::Error>
    ensures { OnOk result
        (SendsOptional (codes "event") (events_data events) (S.written out.old) (S.written out.new)) }
{
    if events == 0 {
        return Ok(());
    }
    out.key("event")?;
    send_acknowledgements(out, events)
}

fn send_ping<S: Serializer>(out: &mut S, asked: bool) -> Result<(), S::Error>
    ensures { OnOk result
        (SendsOptional (codes "ping") (ping_data asked) (S.written out.old) (S.written out.new)) }
{
    if !asked {
        return Ok(());
    }
    out.key("ping")?;
    send_status(out, "ok")
}

fn send_update<S: Serializer>(out: &mut S, check: Option<&CheckReply>) -> Result<(), S::Error>
    ensures { OnOk result
        (SendsOptional (codes "updatecheck") (update_data (option_map (λ reply. reply.now) check.entry))
        (S.written out.old) (S.written out.new)) }
{
    match check {
        Some(check) => {
            out.key("updatecheck")?;
            send_check(out, check)
        }
        None => Ok(()),
    }
}

// How many members the reply for a known app has.
fn count_members(app: &KnownApp) -> usize
    ensures { (appid : List ℕ) → result ≡ members_len (known_members appid app.now) }
{
    4 + usize::from(app.events > 0) + usize::from(app.ping) + usize::from(app.check.is_some())
}

fn send_known<S: Serializer>(out: &mut S, appid: &Text, app: &KnownApp) -> Result<(), S::Error>
    ensures { OnOk result
        (SendsValue (known_data appid.now app.now) (S.written out.old) (S.written out.new)) }
{
    out.begin_map(Some(count_members(app)))?;
    send_string(out, "appid", appid)?;
    send_string(out, "cohort", &app.cohort)?;
    send_string(out, "cohortname", &app.name)?;
    send_events(out, app.events)?;
    send_ping(out, app.ping)?;
    send_str(out, "status", "ok")?;
    send_update(out, app.check.as_ref())?;
    out.end_map()
}

fn send_unknown<S: Serializer>(out: &mut S, appid: &Text) -> Result<(), S::Error>
    ensures { OnOk result
        (SendsValue (unknown_data appid.now) (S.written out.old) (S.written out.new)) }
{
    out.begin_map(Some(2))?;
    send_string(out, "appid", appid)?;
    send_str(out, "status", "error-unknownApplication")?;
    out.end_map()
}

impl Described for AppReply {
    ghost writes = { λ app. SendsValue (app_data app) };
}

impl Serialize for AppReply {
    fn serialize<S: Serializer>(&self, out: &mut S) -> Result<(), S::Error> {
        let appid = &self.appid;
        match &self.state {
            AppState::Known(known) => send_known(out, appid, known),
            AppState::Unknown => send_unknown(out, appid),
            AppState::Other => out.unit(),
        }
    }
}

fn send_daystart<S: Serializer>(out: &mut S, reply: &Reply) -> Result<(), S::Error>
    ensures { OnOk result
        (SendsValue (daystart_data reply.now) (S.written out.old) (S.written out.new)) }
{
    out.begin_map(Some(2))?;
    send_number(out, "elapsed_days", reply.days)?;
    send_number(out, "elapsed_seconds", reply.seconds)?;
    out.end_map()
}

fn send_apps<S: Serializer>(out: &mut S, apps: &Items<AppReply>) -> Result<(), S::Error>
    ensures { OnOk result
        (SendsValue (apps_data apps.now) (S.written out.old) (S.written out.new)) }
{
    apps.as_slice().serialize(out)
}

fn send_response<S: Serializer>(out: &mut S, reply: &Reply) -> Result<(), S::Error>
    ensures { OnOk result
        (SendsValue (response_data reply.now) (S.written out.old) (S.written out.new)) }
{
    out.begin_map(Some(3))?;
    out.key("app")?;
    send_apps(out, &reply.apps)?;
    out.key("daystart")?;
    send_daystart(out, reply)?;
    send_str(out, "protocol", "3.1")?;
    out.end_map()
}

impl Described for Reply {
    ghost writes = { λ reply. SendsValue (reply_data reply) };
}

impl Serialize for Reply {
    #[tactic(auto, unfolding(crate::specs::ReplyWriting::reply_data))]
    fn serialize<S: Serializer>(&self, out: &mut S) -> Result<(), S::Error> {
        out.begin_map(Some(1))?;
        out.key("response")?;
        send_response(out, self)?;
        out.end_map()
    }
}

// rule: Bytes of a reply
/// Writes a reply of the Omaha protocol 3.1, JSON form.
///
/// The reply is the four bytes `)]}'`, a line feed and JSON with no space in it, its members in
/// byte order of their names. No app and no reply to an update check may be `Other`, which has no
/// JSON.
pub fn write_reply(alloc: Global, reply: &Reply) -> Result<Vec<u8>, AllocError>
    requires { IsWritable reply.now }
    ensures { IfOk result (λ text. text.items ≡ reply_bytes reply.now) }
{
    let Ok(json) = serde_json::to_vec(alloc, reply) else {
        return Err(AllocError);
    };
    let size = SCRIPT_GUARD.len().saturating_add(json.len());
    let mut text = Vec::with_capacity(alloc, size)?;
    text.extend_from_slice(SCRIPT_GUARD)?;
    text.extend_from_slice(&json)?;
    Ok(text)
}
