//! Warnings of targets that no client can reach.

ghost use Rattle.std.specs.Prelude.{◌≡◌, ◌++◌, IfOk, OnOk, string_bytes};
ghost use Rattle.std.specs.List.{list_any};
ghost use Rattle.review_reports.specs.Warnings.{has_next, has_no_chain, is_out_of_reach, warning_among, warning_line, warning_of, warnings_string};

use crate::line::find_app;
use catalogue::{App, Catalogue};
use quotes::Quote;
use reviews::{Outcome, TrackReview, cohort_name, spelled_at};
use std::alloc::{AllocError, Global};

fn has_next(outcome: &Outcome) -> bool
    ensures { result ≡ has_next outcome.now }
{
    matches!(outcome, Outcome::Next { .. })
}

/// Whether no chain leads from a place.
pub(crate) fn has_no_chain(quote: &Quote) -> bool
    ensures { result ≡ has_no_chain quote.now }
{
    matches!(quote, Quote::NoChain)
}

fn has_way(outcomes: &[Outcome]) -> bool
    ensures { result ≡ list_any has_next outcomes.now }
{
    outcomes.iter().any(|outcome| has_next(outcome))
}

// rule: Target out of reach
fn is_out_of_reach(review: &TrackReview) -> bool
    ensures { result ≡ is_out_of_reach review.now }
{
    !has_way(review.outcomes.as_slice()) && has_no_chain(&review.newcomers)
}

// The line of a track whose target is out of reach.
fn warning_line(alloc: Global, app: &App, review: &TrackReview) -> Result<String, AllocError>
    ensures { IfOk result (λ line. string_bytes line ≡ warning_line app.now review.now) }
{
    let id = app.id.as_str();
    let cohort = cohort_name(app, review.key.cohort);
    let target = spelled_at(app, review.target);
    format!(in alloc; "warning: app {id}, cohort {cohort}: nothing leads to {target}\n")
}

// Adds the line of a track, if it has one.
fn push_warning(
    alloc: Global,
    text: &mut Vec<u8>,
    app: &App,
    review: &TrackReview,
) -> Result<(), AllocError>
    ensures { OnOk result (text.new.items ≡ text.old.items ++ warning_of app.now review.now) }
{
    if review.key.rollback || !is_out_of_reach(review) {
        return Ok(());
    }
    let line = warning_line(alloc, app, review)?;
    text.extend_from_slice(line.as_str().as_bytes())
}

fn push_warning_among(
    alloc: Global,
    text: &mut Vec<u8>,
    catalogue: &Catalogue,
    review: &TrackReview,
) -> Result<(), AllocError>
    ensures { OnOk result (text.new.items ≡ text.old.items ++ warning_among catalogue.now review.now) }
{
    match find_app(catalogue, review.key.app) {
        Some(app) => push_warning(alloc, text, app, review),
        None => Ok(()),
    }
}

// rule: Printed warnings
/// Writes a line for each track whose target no client can reach, in their order.
///
/// Clients who allow a downgrade have no line of their own. Out of memory is the only error.
pub fn write_warnings(
    alloc: Global,
    catalogue: &Catalogue,
    reviews: &[TrackReview],
) -> Result<Vec<u8>, AllocError>
    ensures { IfOk result (λ text. text.items ≡ warnings_string catalogue.now reviews.now) }
{
    let mut text = Vec::new(alloc);
    for review in reviews {
        push_warning_among(alloc, &mut text, catalogue, review)?;
    }
    Ok(text)
}
