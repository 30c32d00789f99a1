// What a review asks a server.

ghost use Rattle.std.specs.Prelude.{◌≡◌, ◌==◌, ◌≤◌, Err, IfErr, IfOk, Ok, length};
ghost use Rattle.omaha_commands.specs.Reviewing.{FindsIfNamed, FindsInDump, FindsInReply, FindsOnServer, FindsPublished, FindsSaid, FindsScriptOn, IsDeclined, IsUnanswered, based_on, names_edition};

use crate::asking::{SECONDS, dump_limits, line_limits};
use crate::forms::{Meaning, meaning_by_decline};
use crate::operating::unexpected;
use crate::reviewing::{Findings, Verdict, review_by};
use catalogue::Batch;
use editions::Edition;
use failures::Failure;
use omaha_arguments::Review;
use profiles::read_service;
use std::alloc::{AllocError, Global};
use std::thread::Threads;
use update_client::{Connector, Limits, LinkFault, Reply};
use values::Text;

/// The script that asks a server for its edition: no edition has the number 0, so that no server publishes it.
pub(crate) const PROBE: &[u8] = b"schema = 1\nbase = 0\n";

/// What an operator's listener replies to a body.
pub(crate) fn ask<R: Connector>(
    rt: &R,
    alloc: Global,
    to: &Text,
    limits: Limits,
    body: &[u8],
) -> Result<Reply, Failure>
    ensures ok { IfOk result (λ reply. R.operated rt.now to.now body.now reply) }
    ensures within { IfOk result (λ reply. length reply.body.items ≤ limits.reply) }
    ensures err { IfErr result (λ failure. IsUnanswered to.now (Err failure)) }
{
    match rt.operate_at(alloc, to.as_str(), limits, body) {
        Ok(reply) => Ok(reply),
        Err(LinkFault::Memory) => Err(Failure::Memory),
        Err(_) => Err(Failure::Net(to.clone()?)),
    }
}

// What is found if a server sent another reply than the one that was asked for.
fn declined(to: &Text, reply: Reply) -> Result<Findings, Failure>
    ensures { IsDeclined to.now reply result }
{
    match meaning_by_decline(reply.body.as_slice()) {
        Meaning::Declined => Ok(Findings {
            verdict: Verdict::Declined(reply.status),
            text: reply.body,
        }),
        _ => Err(unexpected(to, reply.status)),
    }
}

// A script as if it were written for an edition.
fn based_on(edition: &Edition, script: Option<(u64, Batch)>) -> Option<(u64, Batch)>
    ensures { result ≡ based_on edition.now script }
{
    match script {
        Some((_, batch)) => Some((edition.number(), batch)),
        None => None,
    }
}

// What the review of a dump finds.
fn review_dump<R: Threads + Sync>(
    rt: &R,
    alloc: Global,
    dump: &[u8],
    asked: &Review,
    script: Option<(u64, Batch)>,
) -> Result<Findings, Failure>
    ensures { FindsInDump dump.now asked.now script result }
{
    match read_service(rt, alloc, dump, 1) {
        Ok(service) => {
            let script = based_on(&service.edition, script);
            review_by(alloc, asked, &service.edition, script)
        }
        Err(failure) => Err(failure),
    }
}

// What the review of the reply to a dump finds.
fn review_reply<R: Threads + Sync>(
    rt: &R,
    alloc: Global,
    to: &Text,
    reply: Reply,
    asked: &Review,
    script: Option<(u64, Batch)>,
) -> Result<Findings, Failure>
    ensures { FindsInReply (reply.status == 200) to.now reply asked.now script result }
{
    if reply.status == 200 {
        review_dump(rt, alloc, reply.body.as_slice(), asked, script)
    } else {
        declined(to, reply)
    }
}

// What the review of what a server has published finds.
fn review_published<R: Connector + Threads + Sync>(
    rt: &R,
    alloc: Global,
    to: &Text,
    asked: &Review,
    script: Option<(u64, Batch)>,
) -> Result<Findings, Failure>
    ensures { FindsPublished (R.operated rt.now) to.now asked.now script result }
{
    match ask(rt, alloc, to, dump_limits(SECONDS), b"dump") {
        Ok(reply) => review_reply(rt, alloc, to, reply, asked, script),
        Err(failure) => Err(failure),
    }
}

// Whether a reply names the edition of a number.
fn names_edition(alloc: Global, reply: &Reply, number: u64) -> Result<bool, AllocError>
    ensures { IfOk result (λ names. names ≡ names_edition reply.now.body.items number) }
{
    let line = format!(in alloc; "stale {number}\n")?;
    Ok(reply.body.as_slice() == line.as_str().as_bytes())
}

// What the review of a script finds by whether the server has its edition, as a reply says.
fn review_if<R: Connector + Threads + Sync>(
    named: bool,
    rt: &R,
    alloc: Global,
    to: &Text,
    reply: Reply,
    asked: &Review,
    script: (u64, Batch),
) -> Result<Findings, Failure>
    ensures { FindsIfNamed named reply (R.operated rt.now) to.now asked.now script result }
{
    if named {
        review_published(rt, alloc, to, asked, Some(script))
    } else {
        declined(to, reply)
    }
}

// What the review of a script finds by a reply that may name its edition.
fn review_said<R: Connector + Threads + Sync>(
    rt: &R,
    alloc: Global,
    to: &Text,
    reply: Reply,
    asked: &Review,
    script: (u64, Batch),
) -> Result<Findings, Failure>
    ensures { FindsSaid reply (R.operated rt.now) to.now asked.now script result }
{
    match names_edition(alloc, &reply, script.0) {
        Ok(named) => review_if(named, rt, alloc, to, reply, asked, script),
        Err(_) => Err(Failure::Memory),
    }
}

// What the review of a script finds that is written for the edition of a server.
fn review_script_on<R: Connector + Threads + Sync>(
    rt: &R,
    alloc: Global,
    to: &Text,
    asked: &Review,
    script: (u64, Batch),
) -> Result<Findings, Failure>
    ensures { FindsScriptOn (R.operated rt.now) to.now asked.now script result }
{
    match ask(rt, alloc, to, line_limits(SECONDS), PROBE) {
        Ok(reply) => review_said(rt, alloc, to, reply, asked, script),
        Err(failure) => Err(failure),
    }
}

// rule: Review of a server
/// What the review of a server finds.
pub(crate) fn review_server<R: Connector + Threads + Sync>(
    rt: &R,
    alloc: Global,
    to: &Text,
    asked: &Review,
    script: Option<(u64, Batch)>,
) -> Result<Findings, Failure>
    ensures { FindsOnServer (R.operated rt.now) to.now asked.now script result }
{
    match script {
        None => review_published(rt, alloc, to, asked, None),
        Some(script) => review_script_on(rt, alloc, to, asked, script),
    }
}
