// What a plan has for each app of a request, and to which track a client is assigned.

use crate::out_of_memory_tests::are_right;
use catalogue::Catalogue;
use cohorts::{Lane, assign};
use editions::Edition;
use fixtures::{CHAINED, catalogue_of_profile, keep, open_profile};
use omaha_json::{AppAsk, Request, read_request};
use payload_graph::Payload;
use replies::{Choice, Plan, plan};
use std::alloc::Global;
use std::sync::Wait;
use std::thread::Threads;

// Clients at 1.0, at 2.0, at no release, and at 4.0; one of `beta` that may be downgraded, one with a prefix, one without a
// cohort, and one of an unknown app.
const REQUEST: &str = r#"{"request":{"protocol":"3.1","sessionid":"abc","app":[
{"appid":"demo","cohort":"stable:0","packages":{"package":[{"fp":"1.1111111111111111111111111111111111111111111111111111111111111111"}]},"updatecheck":{},"version":"1.0"},
{"appid":"demo","cohort":"stable:0","packages":{"package":[{"fp":"1.2222222222222222222222222222222222222222222222222222222222222222"}]},"updatecheck":{},"version":"2.0"},
{"appid":"demo","cohort":"stable:0","updatecheck":{},"version":"0.0.0.0"},
{"appid":"demo","cohort":"stable:0","packages":{"package":[{"fp":"1.4444444444444444444444444444444444444444444444444444444444444444"}]},"updatecheck":{},"version":"4.0"},
{"appid":"demo","cohort":"beta:0","packages":{"package":[{"fp":"1.4444444444444444444444444444444444444444444444444444444444444444"}]},"updatecheck":{"rollback_allowed":true},"version":"4.0"},
{"appid":"demo","cohort":"stable:0","packages":{"package":[{"fp":"1.2222222222222222222222222222222222222222222222222222222222222222"}]},"updatecheck":{"targetversionprefix":"4"},"version":"2.0"},
{"appid":"demo","packages":{"package":[{"fp":"1.1111111111111111111111111111111111111111111111111111111111111111"}]},"updatecheck":{},"version":"1.0"},
{"appid":"nope","updatecheck":{}}]}}"#;

// Whether each is chosen a differential or a full package, its index, and its bytes.
const CHOICES: [Option<(bool, usize, u64)>; 8] = [
    Some((true, 0, 300)),
    Some((true, 2, 200)),
    Some((false, 1, 1200)),
    None,
    Some((false, 1, 1200)),
    Some((true, 3, 500)),
    Some((true, 0, 300)),
    None,
];

fn shown(choice: Option<Choice>) -> Option<(bool, usize, u64)> {
    let Choice { payload, bytes } = choice?;
    match payload {
        Payload::Full(index) => Some((false, index, bytes)),
        Payload::Differ(index) => Some((true, index, bytes)),
    }
}

// Whether a plan has the choices, and one table, that of the client with a prefix.
fn has_choices(plan: &Plan) -> bool {
    let choices = plan.choices.as_slice();
    for (choice, wanted) in choices.iter().zip(CHOICES) {
        if shown(*choice) != wanted {
            return false;
        }
    }
    choices.len() == 8 && plan.tables.as_slice().len() == 1
}

fn request_of(alloc: Global) -> Option<&'static Request> {
    match read_request(alloc, REQUEST.as_bytes()) {
        Ok(request) => keep(alloc, request),
        Err(_) => None,
    }
}

// Whether the plan of an edition is so; `None` if memory ran out.
fn plans_by(alloc: Global, edition: &Edition) -> Option<bool> {
    let request = request_of(alloc)?;
    let plan = keep(alloc, plan(alloc, edition, request).ok()?)?;
    Some(has_choices(plan))
}

fn plans<R: Threads + Wait>(rt: &R, alloc: Global) -> Option<bool> {
    let (press, _views) = open_profile(rt, alloc, CHAINED, 1).ok()?;
    let are_planned = plans_by(alloc, press.edition());
    press.end(rt);
    are_planned
}

// rule: Chosen payload
// rule: Requested bytes
// rule: Tables of a plan
#[test]
fn plan_without_memory(rt: HostRuntime) {
    let first = plans(&rt, rt.alloc());
    assert!(rt; are_right(first, plans(&rt, rt.alloc())));
}

// Whether the client without a cohort has its bucket by a session, and is led to the target of `stable`.
fn is_assigned(
    catalogue: &Catalogue,
    ask: &AppAsk,
    session: &str,
    bucket: u16,
    lane: Lane,
) -> bool {
    if catalogue.apps().is_empty() {
        return false;
    }
    let track = assign(catalogue, 0, ask, session);
    track.cohort == 0 && track.bucket == bucket && track.lane == lane && !track.rollback
}

fn are_assigned(alloc: Global) -> Option<bool> {
    let catalogue = catalogue_of_profile(alloc, CHAINED)?;
    let ask = request_of(alloc)?.apps.as_slice().get(6)?;
    let is_early = is_assigned(catalogue, ask, "abc", 319, Lane::Target);
    Some(is_early && is_assigned(catalogue, ask, "", 610, Lane::Held))
}

// rule: Bucket of a client
// rule: Cohort of a client
// rule: Lane
#[test]
fn clients_are_assigned_by_their_session(rt: HostRuntime) {
    assert!(rt; are_assigned(rt.alloc()) == Some(true));
}
