//! What mirrors granted of their budgets.

ghost use Rattle.std.specs.Prelude.{◌≡◌, ◌++◌, OnOk, string_bytes};
ghost use Rattle.operator_pages.specs.Spending.{amount_of, amounts, mirror_line, mirror_lines, mirror_row, mirror_sample, status_line};

use crate::html::{push_bar, push_cell, push_name_cell, push_number_cell};
use crate::metric::Metric;
use crate::samples::push_sample_of;
use catalogue::Mirror;
use std::alloc::{AllocError, Global};
use std::fmt::Write;

/// Where a mirror is written.
#[derive(Clone, Copy)]
pub(crate) enum Place {
    /// In the status.
    Status,
    /// In a metric.
    Sample(Metric),
    /// In the page.
    Row,
}

// rule: Line of a mirror
#[tactic(auto, unfolding(crate::specs::Spending::status_line))]
fn push_status_line(text: &mut String, mirror: &Mirror, granted: u64) -> Result<(), AllocError>
    ensures { OnOk result (string_bytes text.new ≡ string_bytes text.old ++ status_line mirror.now granted) }
{
    let name = mirror.name.as_str();
    let budget = mirror.budget;
    write!(text, "{name} {granted} of {budget}\n")
}

// What a metric says of a mirror: the bytes that it granted, or its budget.
fn amount_of(metric: Metric, mirror: &Mirror, granted: u64) -> u64
    ensures { result ≡ amount_of metric mirror.now granted }
{
    match metric {
        Metric::Granted => granted,
        _ => mirror.budget,
    }
}

#[tactic(auto, unfolding(crate::specs::Spending::mirror_sample))]
fn push_mirror_sample(
    alloc: Global,
    text: &mut String,
    metric: Metric,
    mirror: &Mirror,
    granted: u64,
) -> Result<(), AllocError>
    ensures { OnOk result (string_bytes text.new ≡ string_bytes text.old ++ mirror_sample metric mirror.now granted) }
{
    let number = amount_of(metric, mirror, granted);
    push_sample_of(alloc, text, metric, "mirror", mirror.name.as_str(), number)
}

#[tactic(auto, unfolding(crate::specs::Spending::amounts))]
fn push_amounts(text: &mut String, granted: u64, budget: u64) -> Result<(), AllocError>
    ensures { OnOk result (string_bytes text.new ≡ string_bytes text.old ++ amounts granted budget) }
{
    text.push_str("</td>")?;
    push_number_cell(text, granted)?;
    push_number_cell(text, budget)?;
    text.push_str("</tr>\n")
}

// rule: Row of a mirror
#[tactic(auto, unfolding(crate::specs::Spending::mirror_row))]
fn push_mirror_row(text: &mut String, mirror: &Mirror, granted: u64) -> Result<(), AllocError>
    ensures { OnOk result (string_bytes text.new ≡ string_bytes text.old ++ mirror_row mirror.now granted) }
{
    text.push_str("<tr>")?;
    push_name_cell(text, mirror.name.as_str())?;
    push_cell(text, mirror.codebase.as_str())?;
    push_bar(text, granted, mirror.budget)?;
    push_amounts(text, granted, mirror.budget)
}

#[tactic(auto, unfolding(crate::specs::Spending::mirror_line))]
fn push_mirror(
    alloc: Global,
    text: &mut String,
    place: Place,
    mirror: &Mirror,
    granted: u64,
) -> Result<(), AllocError>
    ensures { OnOk result (string_bytes text.new ≡ string_bytes text.old ++ mirror_line place (mirror.now, granted)) }
{
    match place {
        Place::Status => push_status_line(text, mirror, granted),
        Place::Sample(metric) => push_mirror_sample(alloc, text, metric, mirror, granted),
        Place::Row => push_mirror_row(text, mirror, granted),
    }
}

/// Adds each mirror with the bytes that it granted, in their order.
pub(crate) fn push_mirrors(
    alloc: Global,
    text: &mut String,
    place: Place,
    mirrors: &[Mirror],
    granted: &[u64],
) -> Result<(), AllocError>
    ensures { OnOk result (string_bytes text.new ≡ string_bytes text.old ++ mirror_lines place mirrors.now granted.now) }
{
    for index in 0..mirrors.len().min(granted.len()) {
        push_mirror(alloc, text, place, &mirrors[index], granted[index])?;
    }
    Ok(())
}
