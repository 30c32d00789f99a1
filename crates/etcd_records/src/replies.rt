// What replies of etcd say.

ghost use Rattle.std.specs.Prelude.{◌≡◌, IfOk, option_map};
ghost use Rattle.serde_json.specs.View.{view};
ghost use Rattle.etcd_records.specs.Exchanges.{outcome_of};
ghost use Rattle.etcd_records.specs.Replies.{Says, SaysBy, found_in, held_in, is_created, json_of, rejects, reply_of, pair_value};

use crate::gateway::{GatewayFault, Response};
use crate::headers::{Header, header_of, trouble_in};
use kept_records::{Cause, Unreached};
use serde_json::{Category, Value};
use std::alloc::{AllocError, Global};

// Why there is no reply, if nobody replies.
const NO_REPLY: Cause = Cause::Unreachable(Unreached::NoReply);

/// What one attempt at a request says.
#[derive(Drop)]
pub(crate) enum Said {
    /// Etcd's reply.
    Reply(Value),
    /// There is no reply of etcd, why, and whether the request may have been carried out.
    Missed(Cause, bool),
}

// Parses JSON as `serde_json` accepts it.
fn parse(alloc: Global, body: &[u8]) -> Result<Option<Value>, AllocError>
    ensures { IfOk result (λ read. option_map view read ≡ json_of body.now) }
{
    match Value::from_slice(alloc, body) {
        Ok(json) => Ok(Some(json)),
        Err(error) => match error.classify() {
            Category::Memory => Err(AllocError),
            _ => Ok(None),
        },
    }
}

// rule: Reply of etcd
// Parses a reply, or returns `None` if it is none of etcd.
#[tactic(auto, unfolding(crate::specs::Replies::reply_of))]
fn read_reply(alloc: Global, body: &[u8]) -> Result<Option<Value>, AllocError>
    ensures { IfOk result (λ read. option_map view read ≡ reply_of body.now) }
{
    match parse(alloc, body)? {
        Some(json) if header_of(&json).is_some() => Ok(Some(json)),
        _ => Ok(None),
    }
}

// rule: Rejected request
// Whether a status says that the request was not carried out.
fn rejects(status: u16) -> bool
    ensures { result ≡ rejects status }
{
    status == 400 || status == 413
}

// rule: Replies of one cluster
// What a reply says after one with such a header, and what it says if it is none of etcd.
fn judge(seen: Option<Header>, read: Option<Value>) -> Said
    ensures { SaysBy seen (option_map view read) result }
{
    let Some(reply) = read else {
        return Said::Missed(Cause::Unreadable, true);
    };
    match trouble_in(seen, &reply) {
        Some(why) => Said::Missed(Cause::Unreachable(why), true),
        None => Said::Reply(reply),
    }
}

fn hear_response(
    alloc: Global,
    seen: Option<Header>,
    response: &Response,
) -> Result<Said, AllocError>
    ensures { IfOk result (Says seen (outcome_of (Ok response.now))) }
{
    if response.status == 200 {
        let read = read_reply(alloc, response.body.as_slice())?;
        return Ok(judge(seen, read));
    }
    if rejects(response.status) {
        return Ok(Said::Missed(Cause::TooLarge, false));
    }
    Ok(Said::Missed(NO_REPLY, true))
}

// rule: Attempt at a request
/// Returns what an attempt says after a reply with such a header.
pub(crate) fn hear(
    alloc: Global,
    seen: Option<Header>,
    came: &Result<Response, GatewayFault>,
) -> Result<Said, AllocError>
    ensures { IfOk result (Says seen (outcome_of came.now)) }
{
    match came {
        Ok(response) => hear_response(alloc, seen, response),
        Err(GatewayFault::Unsent) => Ok(Said::Missed(NO_REPLY, false)),
        Err(GatewayFault::Unanswered) => Ok(Said::Missed(NO_REPLY, true)),
        Err(GatewayFault::Memory) => Ok(Said::Missed(Cause::Memory, true)),
    }
}

/// Whether a transaction put its value.
pub(crate) fn is_created(reply: &Value) -> bool
    ensures { result ≡ is_created (view reply.now) }
{
    reply
        .get("succeeded")
        .and_then(Value::as_bool)
        .unwrap_or(false)
}

// The value of a key in a reply, which JSON leaves out if it is empty.
fn pair_value(pair: &Value) -> &str
    ensures { result.now ≡ pair_value (view pair.now) }
{
    pair.get("value").and_then(Value::as_str).unwrap_or("")
}

/// Returns the value in base64 that a transaction found at its key.
pub(crate) fn held_in(reply: &Value) -> Option<&str>
    ensures { option_map (λ text. text.now) result ≡ held_in (view reply.now) }
{
    let pair = reply.pointer("/responses/0/response_range/kvs/0")?;
    Some(pair_value(pair))
}

/// Returns the value in base64 that a read found at its key.
pub(crate) fn found_in(reply: &Value) -> Option<&str>
    ensures { option_map (λ text. text.now) result ≡ found_in (view reply.now) }
{
    let pair = reply.pointer("/kvs/0")?;
    Some(pair_value(pair))
}
