//! The lines before the rows.

ghost use Rattle.std.specs.Prelude.{◌≡◌, ◌∷◌, ◌++◌, IfOk, IfSome, codes, string_bytes};
ghost use Rattle.hex.specs.Hex.{encode_lower};
ghost use Rattle.std.specs.Option.{is_some};
ghost use Rattle.certificates.specs.Forms.{rest_of};
ghost use Rattle.certificates.specs.Headings.{has_value, heading_line, heading_word, is_heading, lane_word, rollback_word};
ghost use Rattle.certificates.specs.Reading.{heading_flaw};

use crate::fault::Flaw;
use crate::form::{is_either, is_version, number_below, split_first};
use crate::lines::as_string;
use catalogue::form::{hash_of, is_app_id, is_cohort_name};
use catalogue::{App, Cohort, Release};
use cohorts::Lane;
use payload_graph::TrackKey;
use std::alloc::{AllocError, Global};
use values::Text;

const COUNT_BOUND: u64 = 513;

/// A line before the rows.
#[derive(Clone, Copy)]
pub(crate) enum Heading {
    /// The format and its version.
    Format,
    /// The identifier of the app.
    App,
    /// The name of the cohort.
    Cohort,
    /// The lane of the clients.
    Lane,
    /// Whether the clients allow a downgrade.
    Rollback,
    /// The version of the target and the SHA-256 of its full package.
    Target,
    /// How many releases there are.
    Rows,
}

/// The lines before the rows, in their order.
pub(crate) const HEADINGS: [Heading; 7] = [
    Heading::Format,
    Heading::App,
    Heading::Cohort,
    Heading::Lane,
    Heading::Rollback,
    Heading::Target,
    Heading::Rows,
];

fn lane_word(lane: Lane) -> &'static str
    ensures { result.now ≡ lane_word lane }
{
    match lane {
        Lane::Target => "target",
        Lane::Held => "held",
    }
}

fn rollback_word(rollback: bool) -> &'static str
    ensures { result.now ≡ rollback_word rollback }
{
    if rollback { "yes" } else { "no" }
}

fn target_fields(alloc: Global, spelled: &str, digits: &str) -> Result<String, AllocError>
    ensures { IfOk result (λ line. string_bytes line ≡ codes "target " ++ (spelled.now ++ 32 ∷ digits.now)) }
{
    format!(in alloc; "target {spelled} {digits}")
}

fn target_line(alloc: Global, target: &Release) -> Result<String, AllocError>
    ensures { IfOk result (λ line. string_bytes line ≡ codes "target " ++ (target.now.spelled ++ 32 ∷ encode_lower target.now.hash)) }
{
    let digits = hex::encode(alloc, target.hash)?;
    target_fields(alloc, target.spelled.as_str(), digits.as_str())
}

// rule: Heading of a certificate
/// The line of a track.
pub(crate) fn line_of(
    alloc: Global,
    app: &App,
    cohort: &Cohort,
    key: &TrackKey,
    target: &Release,
    heading: Heading,
) -> Result<Text, AllocError>
    ensures { IfOk result (λ line. line ≡ heading_line app.now cohort.now key.now target.now heading) }
{
    let line = match heading {
        Heading::Format => format!(in alloc; "prices 1")?,
        Heading::App => format!(in alloc; "app {}", app.id.as_str())?,
        Heading::Cohort => format!(in alloc; "cohort {}", cohort.name.as_str())?,
        Heading::Lane => format!(in alloc; "lane {}", lane_word(key.lane))?,
        Heading::Rollback => format!(in alloc; "rollback {}", rollback_word(key.rollback))?,
        Heading::Target => target_line(alloc, target)?,
        Heading::Rows => format!(in alloc; "rows {}", app.releases.len())?,
    };
    Ok(Text::new(line))
}

fn word_of(heading: Heading) -> &'static str
    ensures { result.now ≡ heading_word heading }
{
    match heading {
        Heading::Format => "prices",
        Heading::App => "app",
        Heading::Cohort => "cohort",
        Heading::Lane => "lane",
        Heading::Rollback => "rollback",
        Heading::Target => "target",
        Heading::Rows => "rows",
    }
}

fn has_value(heading: Heading, value: &str) -> bool
    ensures { result ≡ has_value heading value.now }
{
    match heading {
        Heading::Format => value == "1",
        Heading::App => is_app_id(value),
        Heading::Cohort => is_cohort_name(value),
        Heading::Lane => is_either("target", "held", value),
        Heading::Rollback => is_either("yes", "no", value),
        Heading::Target => {
            let (version, hash) = split_first(value);
            is_version(version) && hash_of(hash).is_some()
        }
        Heading::Rows => number_below(COUNT_BOUND, value).is_some(),
    }
}

/// What is after the first space of a line, if it has this form.
pub(crate) fn value_in(heading: Heading, line: &[u8]) -> Option<&str>
    ensures rest { IfSome result (λ value. value.now ≡ rest_of line.now) }
    ensures formed { is_some result ≡ is_heading heading line.now }
{
    let Some(line) = as_string(line) else {
        return None;
    };
    let (word, value) = split_first(line);
    if word == word_of(heading) && has_value(heading, value) {
        Some(value)
    } else {
        None
    }
}

// rule: Flaw of a heading
/// The flaw of a line, if it is not this one.
pub(crate) fn flaw_of(heading: Heading, line: &[u8], expected: &str) -> Option<Flaw>
    ensures { result ≡ heading_flaw heading line.now expected.now }
{
    if line == expected.as_bytes() {
        return None;
    }
    if value_in(heading, line).is_some() {
        Some(Flaw::Other)
    } else {
        Some(Flaw::Form)
    }
}
