//! The lines of metrics.

ghost use Rattle.std.specs.Prelude.{◌≡◌, ◌++◌, OnOk, string_bytes};
ghost use Rattle.operator_pages.specs.Samples.{comment, head_string, plain_family, sample, sample_of};

use crate::labels::label;
use crate::metric::{Metric, help_of, kind_of, name_of};
use std::alloc::{AllocError, Global};
use std::fmt::Write;

#[tactic(auto, unfolding(crate::specs::Samples::comment))]
fn push_comment(text: &mut String, word: &str, metric: Metric, says: &str) -> Result<(), AllocError>
    ensures { OnOk result (string_bytes text.new ≡ string_bytes text.old ++ comment word.now metric says.now) }
{
    let name = name_of(metric);
    write!(text, "# {word} {name} {says}\n")
}

// rule: Head of a metric
/// Adds the two lines before a metric's samples.
#[tactic(auto, unfolding(crate::specs::Samples::head_string))]
pub(crate) fn push_head(text: &mut String, metric: Metric) -> Result<(), AllocError>
    ensures { OnOk result (string_bytes text.new ≡ string_bytes text.old ++ head_string metric) }
{
    push_comment(text, "HELP", metric, help_of(metric))?;
    push_comment(text, "TYPE", metric, kind_of(metric))
}

// rule: Sample of a metric
/// Adds the line of a sample.
#[tactic(auto, unfolding(crate::specs::Samples::sample))]
pub(crate) fn push_sample(
    text: &mut String,
    metric: Metric,
    labels: &str,
    number: u64,
) -> Result<(), AllocError>
    ensures { OnOk result (string_bytes text.new ≡ string_bytes text.old ++ sample metric labels.now number) }
{
    let name = name_of(metric);
    write!(text, "{name}{labels} {number}\n")
}

/// Adds the line of a sample with one label.
pub(crate) fn push_sample_of(
    alloc: Global,
    text: &mut String,
    metric: Metric,
    name: &str,
    value: &str,
    number: u64,
) -> Result<(), AllocError>
    ensures { OnOk result (string_bytes text.new ≡ string_bytes text.old ++ sample_of metric name.now value.now number) }
{
    let labels = label(alloc, name, value)?;
    push_sample(text, metric, labels.as_str(), number)
}

/// Adds a metric of one sample without labels.
#[tactic(auto, unfolding(crate::specs::Samples::plain_family))]
pub(crate) fn push_plain(text: &mut String, metric: Metric, number: u64) -> Result<(), AllocError>
    ensures { OnOk result (string_bytes text.new ≡ string_bytes text.old ++ plain_family metric number) }
{
    push_head(text, metric)?;
    push_sample(text, metric, "", number)
}
