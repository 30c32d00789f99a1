//! The page of the metrics, in the exposition format of Prometheus.

ghost use Rattle.std.specs.Prelude.{◌≡◌, ◌++◌, IfOk, OnOk, string_bytes};
ghost use Rattle.operator_pages.specs.Metrics.{catalogue_metrics, metrics_string, reachable_number, server_metrics, spending_metrics, traffic_metrics};

use crate::families::{
    push_build, push_cohorts, push_mirror_family, push_publishes, push_releases,
};
use crate::metric::Metric;
use crate::samples::push_plain;
use crate::shown::Shown;
use crate::traffic::{push_checks, push_connections, push_offered, push_requests};
use std::alloc::{AllocError, Global};

// What the gauge of the history says.
fn reachable_number(lost: Option<u64>) -> u64
    ensures { result ≡ reachable_number lost }
{
    match lost {
        None => 1,
        Some(_) => 0,
    }
}

#[tactic(auto, unfolding(crate::specs::Metrics::server_metrics))]
fn push_server(alloc: Global, text: &mut String, shown: &Shown<'_>) -> Result<(), AllocError>
    ensures { OnOk result (string_bytes text.new ≡ string_bytes text.old ++ server_metrics shown.now) }
{
    push_build(alloc, text, shown.version)?;
    push_plain(text, Metric::Started, shown.counts.started)?;
    push_plain(text, Metric::Edition, shown.edition)?;
    push_publishes(alloc, text, &shown.counts)?;
    push_plain(text, Metric::Raises, shown.counts.raised)?;
    push_plain(text, Metric::Reachable, reachable_number(shown.counts.lost))
}

#[tactic(auto, unfolding(crate::specs::Metrics::spending_metrics))]
fn push_spending(alloc: Global, text: &mut String, shown: &Shown<'_>) -> Result<(), AllocError>
    ensures { OnOk result (string_bytes text.new ≡ string_bytes text.old ++ spending_metrics shown.now) }
{
    push_mirror_family(alloc, text, Metric::Budget, shown.mirrors, shown.granted)?;
    push_mirror_family(alloc, text, Metric::Granted, shown.mirrors, shown.granted)
}

#[tactic(auto, unfolding(crate::specs::Metrics::traffic_metrics))]
fn push_traffic(alloc: Global, text: &mut String, shown: &Shown<'_>) -> Result<(), AllocError>
    ensures { OnOk result (string_bytes text.new ≡ string_bytes text.old ++ traffic_metrics shown.now) }
{
    push_requests(alloc, text, shown.totals.replies.as_slice())?;
    push_checks(alloc, text, shown.apps, shown.totals)?;
    push_plain(text, Metric::Uncounted, shown.totals.uncounted)?;
    push_offered(alloc, text, shown.mirrors, shown.totals.bytes.as_slice())?;
    push_connections(alloc, text, shown.totals)?;
    push_plain(text, Metric::Failures, shown.totals.failures)
}

#[tactic(auto, unfolding(crate::specs::Metrics::catalogue_metrics))]
fn push_catalogue(alloc: Global, text: &mut String, shown: &Shown<'_>) -> Result<(), AllocError>
    ensures { OnOk result (string_bytes text.new ≡ string_bytes text.old ++ catalogue_metrics shown.now) }
{
    push_plain(text, Metric::Apps, shown.apps.len() as u64)?;
    push_releases(alloc, text, shown.apps)?;
    push_cohorts(alloc, text, Metric::Share, shown.apps)?;
    push_cohorts(alloc, text, Metric::Open, shown.apps)
}

// rule: Metrics of a server
/// Writes the metrics in the exposition format 0.0.4 of Prometheus, each with its lines `# HELP` and `# TYPE`.
///
/// Labels are names of mirrors, apps and cohorts, escaped by the format's rule. Out of memory is the only error.
pub fn metrics_string(alloc: Global, shown: &Shown<'_>) -> Result<String, AllocError>
    ensures { IfOk result (λ text. string_bytes text ≡ metrics_string shown.now) }
{
    let mut text = String::new(alloc);
    push_server(alloc, &mut text, shown)?;
    push_spending(alloc, &mut text, shown)?;
    push_traffic(alloc, &mut text, shown)?;
    push_catalogue(alloc, &mut text, shown)?;
    Ok(text)
}
