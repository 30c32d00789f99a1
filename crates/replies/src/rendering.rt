//! The reply to a request.

ghost use Rattle.std.specs.Prelude.{◌≡◌, ◌<◌, length, map, slice_get, Some, IfOk};
ghost use Rattle.std.specs.List.{zip};
ghost use Rattle.std.specs.Option.{option_and_then, option_copied};
ghost use Rattle.omaha_json.specs.ReplyWriting.{reply_bytes};
ghost use Rattle.replies.specs.Clients.{IsInCohort, client_in};
ghost use Rattle.replies.specs.Plans.{payloads_of, payload_in, IsPlanOf};
ghost use Rattle.payload_graph.specs.Places.{fingerprint_of};
ghost use Rattle.editions.specs.Editions.{content_of};
ghost use Rattle.replies.specs.Timestamps.{elapsed_days, elapsed_seconds};
ghost use Rattle.replies.specs.Replies.{app_reply, client_reply, diff_of, diff_part, full_part, offer_of, release_by, reply_of, update_reply, with_check, AreOutcomes, IsOutcome};

use crate::choices::{Choice, Plan};
use crate::client::{Assignment, Client};
use catalogue::{App, Catalogue, Diff, Mirror, Release};
use cohorts::CohortText;
use editions::Edition;
use omaha_json::{
    AppAsk, AppReply, AppState, CheckReply, KnownApp, Offer, Part, Reply, Request, write_reply,
};
use payload_graph::Payload;
use std::alloc::{AllocError, Global};
use values::{Items, Text};

const DAY: u64 = 86400;

const DAYS_BEFORE_2007: u64 = 13514;

// rule: Elapsed days and seconds
// Counts whole days from 1 January 2007 to a timestamp, and 0 before it.
fn days_since_2007(moment: u64) -> u64
    ensures { result ≡ elapsed_days moment }
{
    (moment / DAY).saturating_sub(DAYS_BEFORE_2007)
}

fn seconds_of_day(moment: u64) -> u64
    ensures { result ≡ elapsed_seconds moment }
{
    moment % DAY
}

fn print_fingerprint(alloc: Global, release: &Release) -> Result<Text, AllocError>
    ensures { IfOk result (λ fp. fp ≡ fingerprint_of release.now) }
{
    let digits = hex::encode(alloc, release.hash)?;
    let mut text = String::with_capacity(alloc, 2 + digits.len())?;
    text.push_str("1.")?;
    text.push_str(digits.as_str())?;
    Ok(Text::new(text))
}

fn copy_package(codebase: &Text, release: &Release) -> Result<Part, AllocError>
    ensures { IfOk result (λ part. part ≡ full_part codebase.now release.now) }
{
    let codebase = codebase.clone()?;
    let name = release.name.clone()?;
    Ok(Part {
        codebase,
        name,
        size: release.size,
        hash: release.hash,
    })
}

fn copy_diff(codebase: &Text, diff: &Diff) -> Result<Part, AllocError>
    ensures { IfOk result (λ part. part ≡ diff_part codebase.now diff.now) }
{
    let codebase = codebase.clone()?;
    let name = diff.name.clone()?;
    Ok(Part {
        codebase,
        name,
        size: diff.size,
        hash: diff.hash,
    })
}

// rule: Offer of a payload
fn make_offer(
    alloc: Global,
    codebase: &Text,
    release: &Release,
    diff: Option<&Diff>,
) -> Result<Offer, AllocError>
    ensures { IfOk result (λ offer. offer ≡ offer_of codebase.now release.now (option_copied diff.entry)) }
{
    let version = release.spelled.clone()?;
    let fp = print_fingerprint(alloc, release)?;
    let full = copy_package(codebase, release)?;
    let diff = match diff {
        Some(diff) => Some(copy_diff(codebase, diff)?),
        None => None,
    };
    Ok(Offer {
        version,
        fp,
        full,
        diff,
    })
}

fn find_diff(app: &App, payload: Payload) -> Option<&Diff>
    ensures { option_copied result ≡ diff_of app.now payload }
{
    match payload {
        Payload::Full(_) => None,
        Payload::Differ(index) => match app.diffs.as_slice().get(index) {
            Some(there) => Some(there.get()),
            None => None,
        },
    }
}

fn find_offered<'a>(
    catalogue: &'a Catalogue,
    client: &Client<'a>,
    payload: Payload,
) -> Option<&'a Release>
    requires { slice_get catalogue.now client.now.index ≡ Some client.now.app.now }
    ensures { option_copied result ≡ release_by client.now.app.now payload }
{
    let releases = client.app.releases.as_slice();
    match payload {
        Payload::Full(release) => releases.get(release),
        Payload::Differ(_) => {
            let diff = find_diff(client.app, payload)?;
            let release = catalogue.find_release(client.index, &diff.to)?;
            releases.get(release)
        }
    }
}

// rule: Outcome of an update check
// The reply to an update check of a known app.
fn reply_to_check(
    alloc: Global,
    catalogue: &Catalogue,
    mirrors: &[Mirror],
    client: &Client<'_>,
    choice: Option<Choice>,
    outcome: Option<usize>,
) -> Result<CheckReply, AllocError>
    requires app { slice_get catalogue.now client.now.index ≡ Some client.now.app.now }
    requires decided { IsOutcome mirrors.now choice outcome }
    ensures { IfOk result (λ reply. reply
        ≡ update_reply mirrors.now client.now.app.now (payload_in choice, outcome)) }
{
    let Some(choice) = choice else {
        return Ok(CheckReply::NoUpdate);
    };
    let Some(release) = find_offered(catalogue, client, choice.payload) else {
        return Ok(CheckReply::NoUpdate);
    };
    let Some(mirror) = outcome else {
        return Ok(CheckReply::Internal);
    };
    let diff = find_diff(client.app, choice.payload);
    let offer = make_offer(alloc, &mirrors[mirror].codebase, release, diff)?;
    Ok(CheckReply::Offered(offer))
}

fn reply_to_client(
    alloc: Global,
    client: &Client<'_>,
    ask: &AppAsk,
    check: Option<CheckReply>,
) -> Result<KnownApp, AllocError>
    requires { client.now.track.cohort < length client.now.app.now.cohorts }
    ensures { IfOk result (λ known. known
        ≡ with_check (record { index = client.now.index; app = client.now.app.now; track = client.now.track }) ask.now check) }
{
    let cohort = client.cohort();
    let text = CohortText::print(alloc, cohort.name.as_str(), client.track.bucket)?;
    let name = cohort.name.clone()?;
    Ok(KnownApp {
        cohort: text,
        name,
        ping: ask.ping,
        events: ask.events,
        check,
    })
}

// The reply to an app that is asked for, by its client.
fn reply_to_app(
    alloc: Global,
    catalogue: &Catalogue,
    mirrors: &[Mirror],
    ask: &AppAsk,
    assignment: Option<Assignment>,
    choice: Option<Choice>,
    outcome: Option<usize>,
) -> Result<AppReply, AllocError>
    requires assigned { IsInCohort catalogue.now assignment }
    requires decided { IsOutcome mirrors.now choice outcome }
    ensures { IfOk result (λ reply. reply
        ≡ client_reply mirrors.now (option_and_then (client_in catalogue.now) assignment)
        (ask.now, (payload_in choice, outcome))) }
{
    let appid = ask.appid.clone()?;
    let Some(assignment) = assignment else {
        return Ok(AppReply {
            appid,
            state: AppState::Unknown,
        });
    };
    let client = Client::new(catalogue, &assignment);
    let check = match &ask.check {
        Some(_) => Some(reply_to_check(alloc, catalogue, mirrors, &client, choice, outcome)?),
        None => None,
    };
    let known = reply_to_client(alloc, &client, ask, check)?;
    Ok(AppReply {
        appid,
        state: AppState::Known(known),
    })
}

fn reply_to_apps(
    alloc: Global,
    catalogue: &Catalogue,
    mirrors: &[Mirror],
    request: &Request,
    plan: &Plan,
    outcomes: &[Option<usize>],
) -> Result<Vec<AppReply>, AllocError>
    requires planned { IsPlanOf catalogue.now request.now plan.now }
    requires decided { AreOutcomes mirrors.now plan.now.choices outcomes.now }
    ensures { IfOk result (λ replies. replies.items
        ≡ map (app_reply catalogue.now request.now.session mirrors.now)
        (zip request.now.apps (zip (payloads_of plan.now.choices) outcomes.now))) }
{
    let asks = request.apps.as_slice();
    let clients = plan.clients.as_slice();
    let choices = plan.choices.as_slice();
    let mut replies = Vec::with_capacity(alloc, asks.len())?;
    for (index, ask) in asks.iter().enumerate() {
        let (client, choice, outcome) = (clients[index], choices[index], outcomes[index]);
        let reply = reply_to_app(alloc, catalogue, mirrors, ask, client, choice, outcome)?;
        replies.push(reply)?;
    }
    Ok(replies)
}

// rule: Reply
/// Writes the reply to a request, in the Omaha protocol 3.1, JSON form.
///
/// The plan was made of the same edition and request. Each of its apps has one outcome: the index
/// of the mirror that granted the update, or none; a mirror only if an update was chosen. The
/// time is in seconds since 1 January 1970, UTC.
pub fn render(
    alloc: Global,
    edition: &Edition,
    request: &Request,
    plan: &Plan,
    outcomes: &[Option<usize>],
    mirrors: &[Mirror],
    moment: u64,
) -> Result<Vec<u8>, AllocError>
    requires planned { IsPlanOf (content_of edition.now) request.now plan.now }
    requires decided { AreOutcomes mirrors.now plan.now.choices outcomes.now }
    ensures { IfOk result (λ bytes. bytes.items
        ≡ reply_bytes
        (reply_of (content_of edition.now) request.now (payloads_of plan.now.choices)
        outcomes.now mirrors.now moment)) }
{
    let apps = reply_to_apps(alloc, edition.catalogue(), mirrors, request, plan, outcomes)?;
    write_reply(
        alloc,
        &Reply {
            days: days_since_2007(moment),
            seconds: seconds_of_day(moment),
            apps: Items::new(apps),
        },
    )
}
