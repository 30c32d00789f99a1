//! The metrics of what the workers counted.

ghost use Rattle.std.specs.Prelude.{◌≡◌, ◌++◌, IfOk, OnOk, string_bytes};
ghost use Rattle.operator_pages.specs.Traffic.{bytes_with, check_labels, check_sample, check_samples, checks_family, checks_of_app, checks_of_cohort, checks_with, code_sample, code_samples, cohort_part, connections_family, kind_word, offered_family, offered_labels, offered_of_mirror, offered_sample, offered_samples, outcome_part, outcome_word, requests_family};

use crate::labels::push_label_value;
use crate::metric::Metric;
use crate::samples::{push_head, push_sample, push_sample_of};
use catalogue::{App, Cohort, Mirror};
use std::alloc::{AllocError, Global};
use tallies::{CODES, CheckTotals, Kind, MirrorTotals, Outcome, Totals};
use values::Items;

#[tactic(auto, unfolding(crate::specs::Traffic::code_sample))]
fn push_code(alloc: Global, text: &mut String, code: u16, replies: u64) -> Result<(), AllocError>
    ensures { OnOk result (string_bytes text.new ≡ string_bytes text.old ++ code_sample (code, replies)) }
{
    let value = format!(in alloc; "{code}")?;
    push_sample_of(
        alloc,
        text,
        Metric::Requests,
        "code",
        value.as_str(),
        replies,
    )
}

fn push_codes(alloc: Global, text: &mut String, replies: &[u64]) -> Result<(), AllocError>
    ensures { OnOk result (string_bytes text.new ≡ string_bytes text.old ++ code_samples replies.now) }
{
    for index in 0..CODES.len().min(replies.len()) {
        push_code(alloc, text, CODES[index], replies[index])?;
    }
    Ok(())
}

// rule: Metric of replies
/// Adds how many replies had each status.
#[tactic(auto, unfolding(crate::specs::Traffic::requests_family))]
pub(crate) fn push_requests(
    alloc: Global,
    text: &mut String,
    replies: &[u64],
) -> Result<(), AllocError>
    ensures { OnOk result (string_bytes text.new ≡ string_bytes text.old ++ requests_family replies.now) }
{
    push_head(text, Metric::Requests)?;
    push_codes(alloc, text, replies)
}

// The word of an outcome.
fn outcome_word(outcome: Outcome) -> &'static str
    ensures { result.now ≡ outcome_word outcome }
{
    match outcome {
        Outcome::Offered => "offered",
        Outcome::NoUpdate => "noupdate",
        Outcome::Internal => "error_internal",
    }
}

// How many update checks had an outcome.
fn checks_with(checks: CheckTotals, outcome: Outcome) -> u64
    ensures { result ≡ checks_with checks outcome }
{
    match outcome {
        Outcome::Offered => checks.offered,
        Outcome::NoUpdate => checks.noupdate,
        Outcome::Internal => checks.internal,
    }
}

#[tactic(auto, unfolding(crate::specs::Traffic::cohort_part))]
fn push_cohort_part(text: &mut String, app: &str, cohort: &str) -> Result<(), AllocError>
    ensures { OnOk result (string_bytes text.new ≡ string_bytes text.old ++ cohort_part app.now cohort.now) }
{
    text.push_str("{app=\"")?;
    push_label_value(text, app)?;
    text.push_str("\",cohort=\"")?;
    push_label_value(text, cohort)
}

#[tactic(auto, unfolding(crate::specs::Traffic::outcome_part))]
fn push_outcome_part(text: &mut String, outcome: Outcome) -> Result<(), AllocError>
    ensures { OnOk result (string_bytes text.new ≡ string_bytes text.old ++ outcome_part outcome) }
{
    text.push_str("\",outcome=\"")?;
    text.push_str(outcome_word(outcome))?;
    text.push_str("\"}")
}

// Writes the labels of a cohort's update checks with an outcome between braces.
fn check_labels(
    alloc: Global,
    app: &str,
    cohort: &str,
    outcome: Outcome,
) -> Result<String, AllocError>
    ensures { IfOk result (λ text. string_bytes text ≡ check_labels app.now cohort.now outcome) }
{
    let mut text = String::new(alloc);
    push_cohort_part(&mut text, app, cohort)?;
    push_outcome_part(&mut text, outcome)?;
    Ok(text)
}

#[tactic(auto, unfolding(crate::specs::Traffic::check_sample))]
fn push_check(
    alloc: Global,
    text: &mut String,
    app: &App,
    cohort: &Cohort,
    checks: CheckTotals,
    outcome: Outcome,
) -> Result<(), AllocError>
    ensures { OnOk result (string_bytes text.new ≡ string_bytes text.old ++ check_sample app.now cohort.now checks outcome) }
{
    let labels = check_labels(alloc, app.id.as_str(), cohort.name.as_str(), outcome)?;
    let number = checks_with(checks, outcome);
    push_sample(text, Metric::Checks, labels.as_str(), number)
}

#[tactic(auto, unfolding(crate::specs::Traffic::checks_of_cohort))]
fn push_checks_of_cohort(
    alloc: Global,
    text: &mut String,
    app: &App,
    cohort: &Cohort,
    checks: CheckTotals,
) -> Result<(), AllocError>
    ensures { OnOk result (string_bytes text.new ≡ string_bytes text.old ++ checks_of_cohort app.now (cohort.now, checks)) }
{
    push_check(alloc, text, app, cohort, checks, Outcome::Offered)?;
    push_check(alloc, text, app, cohort, checks, Outcome::NoUpdate)?;
    push_check(alloc, text, app, cohort, checks, Outcome::Internal)
}

fn push_checks_of_app(
    alloc: Global,
    text: &mut String,
    app: &App,
    checks: &[CheckTotals],
) -> Result<(), AllocError>
    ensures { OnOk result (string_bytes text.new ≡ string_bytes text.old ++ checks_of_app (app.now, checks.now)) }
{
    let cohorts = app.cohorts.as_slice();
    for index in 0..cohorts.len().min(checks.len()) {
        push_checks_of_cohort(alloc, text, app, &cohorts[index], checks[index])?;
    }
    Ok(())
}

fn push_check_samples(
    alloc: Global,
    text: &mut String,
    apps: &[App],
    checks: &[Items<CheckTotals>],
) -> Result<(), AllocError>
    ensures { OnOk result (string_bytes text.new ≡ string_bytes text.old ++ check_samples apps.now checks.now) }
{
    for index in 0..apps.len().min(checks.len()) {
        push_checks_of_app(alloc, text, &apps[index], checks[index].as_slice())?;
    }
    Ok(())
}

// rule: Metric of update checks
/// Adds how many update checks of each cohort had each outcome, and how many were of unknown apps.
#[tactic(auto, unfolding(crate::specs::Traffic::checks_family))]
pub(crate) fn push_checks(
    alloc: Global,
    text: &mut String,
    apps: &[App],
    totals: &Totals,
) -> Result<(), AllocError>
    ensures { OnOk result (string_bytes text.new ≡ string_bytes text.old ++ checks_family apps.now totals.now) }
{
    push_head(text, Metric::Checks)?;
    push_check_samples(alloc, text, apps, totals.checks.as_slice())?;
    push_sample_of(
        alloc,
        text,
        Metric::Checks,
        "outcome",
        "unknown_app",
        totals.unknown,
    )
}

// The word of a kind of payload.
fn kind_word(kind: Kind) -> &'static str
    ensures { result.now ≡ kind_word kind }
{
    match kind {
        Kind::Full => "full",
        Kind::Differential => "differential",
    }
}

// How many bytes were offered of a kind.
fn bytes_with(bytes: MirrorTotals, kind: Kind) -> u64
    ensures { result ≡ bytes_with bytes kind }
{
    match kind {
        Kind::Full => bytes.full,
        Kind::Differential => bytes.differential,
    }
}

// Writes the labels of the bytes of a kind from a mirror between braces.
#[tactic(auto, unfolding(crate::specs::Traffic::offered_labels))]
fn offered_labels(alloc: Global, mirror: &str, kind: Kind) -> Result<String, AllocError>
    ensures { IfOk result (λ text. string_bytes text ≡ offered_labels mirror.now kind) }
{
    let mut text = String::new(alloc);
    text.push_str("{mirror=\"")?;
    push_label_value(&mut text, mirror)?;
    text.push_str("\",kind=\"")?;
    text.push_str(kind_word(kind))?;
    text.push_str("\"}")?;
    Ok(text)
}

#[tactic(auto, unfolding(crate::specs::Traffic::offered_sample))]
fn push_offered_of(
    alloc: Global,
    text: &mut String,
    mirror: &Mirror,
    bytes: MirrorTotals,
    kind: Kind,
) -> Result<(), AllocError>
    ensures { OnOk result (string_bytes text.new ≡ string_bytes text.old ++ offered_sample mirror.now bytes kind) }
{
    let labels = offered_labels(alloc, mirror.name.as_str(), kind)?;
    let number = bytes_with(bytes, kind);
    push_sample(text, Metric::Offered, labels.as_str(), number)
}

#[tactic(auto, unfolding(crate::specs::Traffic::offered_of_mirror))]
fn push_mirror(
    alloc: Global,
    text: &mut String,
    mirror: &Mirror,
    bytes: MirrorTotals,
) -> Result<(), AllocError>
    ensures { OnOk result (string_bytes text.new ≡ string_bytes text.old ++ offered_of_mirror (mirror.now, bytes)) }
{
    push_offered_of(alloc, text, mirror, bytes, Kind::Full)?;
    push_offered_of(alloc, text, mirror, bytes, Kind::Differential)
}

fn push_mirrors(
    alloc: Global,
    text: &mut String,
    mirrors: &[Mirror],
    bytes: &[MirrorTotals],
) -> Result<(), AllocError>
    ensures { OnOk result (string_bytes text.new ≡ string_bytes text.old ++ offered_samples mirrors.now bytes.now) }
{
    for index in 0..mirrors.len().min(bytes.len()) {
        push_mirror(alloc, text, &mirrors[index], bytes[index])?;
    }
    Ok(())
}

// rule: Metric of offered bytes
/// Adds how many bytes of each kind were offered from each mirror.
#[tactic(auto, unfolding(crate::specs::Traffic::offered_family))]
pub(crate) fn push_offered(
    alloc: Global,
    text: &mut String,
    mirrors: &[Mirror],
    bytes: &[MirrorTotals],
) -> Result<(), AllocError>
    ensures { OnOk result (string_bytes text.new ≡ string_bytes text.old ++ offered_family mirrors.now bytes.now) }
{
    push_head(text, Metric::Offered)?;
    push_mirrors(alloc, text, mirrors, bytes)
}

// rule: Metric of connections
/// Adds how many connections are active, and how many are idle.
#[tactic(auto, unfolding(crate::specs::Traffic::connections_family))]
pub(crate) fn push_connections(
    alloc: Global,
    text: &mut String,
    totals: &Totals,
) -> Result<(), AllocError>
    ensures { OnOk result (string_bytes text.new ≡ string_bytes text.old ++ connections_family totals.now) }
{
    push_head(text, Metric::Connections)?;
    push_sample_of(
        alloc,
        text,
        Metric::Connections,
        "state",
        "active",
        totals.active,
    )?;
    push_sample_of(
        alloc,
        text,
        Metric::Connections,
        "state",
        "idle",
        totals.idle,
    )
}
