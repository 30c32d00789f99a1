//! The metrics of more than one sample.

ghost use Rattle.std.specs.Prelude.{◌≡◌, ◌++◌, OnOk, string_bytes};
ghost use Rattle.operator_pages.specs.Families.{build_family, cohort_family, cohort_number, cohort_sample, cohort_samples, cohorts_of_app, mirror_family, published_samples, publishes_family, release_samples, releases_family, releases_sample, result_sample, unpublished_samples};

use crate::counts::{Counts, Outcome, count_of, word_of};
use crate::labels::cohort_labels;
use crate::metric::Metric;
use crate::samples::{push_head, push_sample, push_sample_of};
use crate::spending::{Place, push_mirrors};
use catalogue::{App, Cohort, Mirror};
use std::alloc::{AllocError, Global};

#[tactic(auto, unfolding(crate::specs::Families::build_family))]
pub(crate) fn push_build(alloc: Global, text: &mut String, version: &str) -> Result<(), AllocError>
    ensures { OnOk result (string_bytes text.new ≡ string_bytes text.old ++ build_family version.now) }
{
    push_head(text, Metric::Build)?;
    push_sample_of(alloc, text, Metric::Build, "version", version, 1)
}

#[tactic(auto, unfolding(crate::specs::Families::result_sample))]
fn push_result(
    alloc: Global,
    text: &mut String,
    counts: &Counts,
    outcome: Outcome,
) -> Result<(), AllocError>
    ensures { OnOk result (string_bytes text.new ≡ string_bytes text.old ++ result_sample counts.now outcome) }
{
    let number = count_of(counts, outcome);
    push_sample_of(
        alloc,
        text,
        Metric::Publishes,
        "result",
        word_of(outcome),
        number,
    )
}

#[tactic(auto, unfolding(crate::specs::Families::published_samples))]
fn push_published(alloc: Global, text: &mut String, counts: &Counts) -> Result<(), AllocError>
    ensures { OnOk result (string_bytes text.new ≡ string_bytes text.old ++ published_samples counts.now) }
{
    push_result(alloc, text, counts, Outcome::Published)?;
    push_result(alloc, text, counts, Outcome::Followed)
}

#[tactic(auto, unfolding(crate::specs::Families::unpublished_samples))]
fn push_unpublished(alloc: Global, text: &mut String, counts: &Counts) -> Result<(), AllocError>
    ensures { OnOk result (string_bytes text.new ≡ string_bytes text.old ++ unpublished_samples counts.now) }
{
    push_result(alloc, text, counts, Outcome::Stale)?;
    push_result(alloc, text, counts, Outcome::Rejected)?;
    push_result(alloc, text, counts, Outcome::Malformed)?;
    push_result(alloc, text, counts, Outcome::Unreachable)?;
    push_result(alloc, text, counts, Outcome::Failed)
}

/// Adds how many scripts and records of other servers came to each result.
#[tactic(auto, unfolding(crate::specs::Families::publishes_family))]
pub(crate) fn push_publishes(
    alloc: Global,
    text: &mut String,
    counts: &Counts,
) -> Result<(), AllocError>
    ensures { OnOk result (string_bytes text.new ≡ string_bytes text.old ++ publishes_family counts.now) }
{
    push_head(text, Metric::Publishes)?;
    push_published(alloc, text, counts)?;
    push_unpublished(alloc, text, counts)
}

/// Adds what a metric says of each mirror: the bytes that it granted, or its budget.
#[tactic(auto, unfolding(crate::specs::Families::mirror_family))]
pub(crate) fn push_mirror_family(
    alloc: Global,
    text: &mut String,
    metric: Metric,
    mirrors: &[Mirror],
    granted: &[u64],
) -> Result<(), AllocError>
    ensures { OnOk result (string_bytes text.new ≡ string_bytes text.old ++ mirror_family metric mirrors.now granted.now) }
{
    push_head(text, metric)?;
    push_mirrors(alloc, text, Place::Sample(metric), mirrors, granted)
}

#[tactic(auto, unfolding(crate::specs::Families::releases_sample))]
fn push_releases_of(alloc: Global, text: &mut String, app: &App) -> Result<(), AllocError>
    ensures { OnOk result (string_bytes text.new ≡ string_bytes text.old ++ releases_sample app.now) }
{
    let id = app.id.as_str();
    let count = app.releases.len() as u64;
    push_sample_of(alloc, text, Metric::Releases, "app", id, count)
}

fn push_release_samples(alloc: Global, text: &mut String, apps: &[App]) -> Result<(), AllocError>
    ensures { OnOk result (string_bytes text.new ≡ string_bytes text.old ++ release_samples apps.now) }
{
    for app in apps {
        push_releases_of(alloc, text, app)?;
    }
    Ok(())
}

/// Adds how many releases each app has.
#[tactic(auto, unfolding(crate::specs::Families::releases_family))]
pub(crate) fn push_releases(
    alloc: Global,
    text: &mut String,
    apps: &[App],
) -> Result<(), AllocError>
    ensures { OnOk result (string_bytes text.new ≡ string_bytes text.old ++ releases_family apps.now) }
{
    push_head(text, Metric::Releases)?;
    push_release_samples(alloc, text, apps)
}

// What a metric says of a cohort: whether it is open, or its share.
fn cohort_number(metric: Metric, cohort: &Cohort) -> u64
    ensures { result ≡ cohort_number metric cohort.now }
{
    match metric {
        Metric::Open if cohort.hintable => 1,
        Metric::Open => 0,
        _ => cohort.share,
    }
}

fn push_cohort(
    alloc: Global,
    text: &mut String,
    metric: Metric,
    app: &App,
    cohort: &Cohort,
) -> Result<(), AllocError>
    ensures { OnOk result (string_bytes text.new ≡ string_bytes text.old ++ cohort_sample metric app.now cohort.now) }
{
    let labels = cohort_labels(alloc, app.id.as_str(), cohort.name.as_str())?;
    let number = cohort_number(metric, cohort);
    push_sample(text, metric, labels.as_str(), number)
}

fn push_cohorts_of_app(
    alloc: Global,
    text: &mut String,
    metric: Metric,
    app: &App,
) -> Result<(), AllocError>
    ensures { OnOk result (string_bytes text.new ≡ string_bytes text.old ++ cohorts_of_app metric app.now) }
{
    for cohort in app.cohorts.as_slice() {
        push_cohort(alloc, text, metric, app, cohort)?;
    }
    Ok(())
}

fn push_cohort_samples(
    alloc: Global,
    text: &mut String,
    metric: Metric,
    apps: &[App],
) -> Result<(), AllocError>
    ensures { OnOk result (string_bytes text.new ≡ string_bytes text.old ++ cohort_samples metric apps.now) }
{
    for app in apps {
        push_cohorts_of_app(alloc, text, metric, app)?;
    }
    Ok(())
}

/// Adds what a metric says of each cohort.
#[tactic(auto, unfolding(crate::specs::Families::cohort_family))]
pub(crate) fn push_cohorts(
    alloc: Global,
    text: &mut String,
    metric: Metric,
    apps: &[App],
) -> Result<(), AllocError>
    ensures { OnOk result (string_bytes text.new ≡ string_bytes text.old ++ cohort_family metric apps.now) }
{
    push_head(text, metric)?;
    push_cohort_samples(alloc, text, metric, apps)
}
