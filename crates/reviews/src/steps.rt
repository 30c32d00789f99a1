//! How many payloads lead from a release to the target.

ghost use Rattle.std.specs.Prelude.{◌≡◌, IfOk, true};
ghost use Rattle.values.specs.Ordered.{ascend};
ghost use Rattle.catalogue.specs.Validity.{is_release_below};
ghost use Rattle.reviews.specs.Steps.{all_steps, next_at, next_to, release_to, steps_at, steps_of};

use crate::outcome::Outcome;
use catalogue::{App, lookup};
use payload_graph::Payload;
use std::alloc::{AllocError, Global};
use values::SharedItems;

/// The index of the release that a payload leads to, `None` if it isn't there.
pub fn release_to(app: &App, payload: Payload) -> Option<usize>
    requires { ascend is_release_below app.now.releases ≡ true }
    ensures { result ≡ release_to app.now payload }
{
    match payload {
        Payload::Full(release) => Some(release),
        Payload::Differ(index) => {
            let diff = app.diffs.as_slice().get(index)?;
            lookup::index_of_release(app.releases.as_slice(), &diff.get().to)
        }
    }
}

fn next_to(app: &App, outcome: &Outcome) -> Option<usize>
    requires { ascend is_release_below app.now.releases ≡ true }
    ensures { result ≡ next_to app.now outcome.now }
{
    match outcome {
        Outcome::Next { payload, .. } => release_to(app, *payload),
        _ => None,
    }
}

fn next_at(app: &App, outcomes: &[Outcome], release: usize) -> Option<usize>
    requires { ascend is_release_below app.now.releases ≡ true }
    ensures { result ≡ next_at app.now outcomes.now release }
{
    let outcome = outcomes.get(release)?;
    next_to(app, outcome)
}

// rule: Steps of a release
/// Counts the first payloads that follow a release, one after the other.
pub(crate) fn steps_of(app: &App, outcomes: &[Outcome], release: usize) -> usize
    requires { ascend is_release_below app.now.releases ≡ true }
    ensures { result ≡ steps_of app.now outcomes.now release }
{
    let mut at = release;
    for steps in 0..outcomes.len() {
        let Some(to) = next_at(app, outcomes, at) else {
            return steps;
        };
        at = to;
    }
    outcomes.len()
}

fn steps_at(app: &App, outcomes: &[Outcome], release: usize) -> Option<u64>
    requires { ascend is_release_below app.now.releases ≡ true }
    ensures { result ≡ steps_at app.now outcomes.now release }
{
    next_at(app, outcomes, release)?;
    Some(steps_of(app, outcomes, release) as u64)
}

/// The steps of each release of a track that is before a chain.
pub(crate) fn all_steps(
    alloc: Global,
    app: &App,
    outcomes: &[Outcome],
) -> Result<SharedItems<Option<u64>>, AllocError>
    requires { ascend is_release_below app.now.releases ≡ true }
    ensures { IfOk result (λ steps. steps ≡ all_steps app.now outcomes.now) }
{
    let mut all = Vec::new(alloc);
    for release in 0..outcomes.len() {
        all.push(steps_at(app, outcomes, release))?;
    }
    SharedItems::new(alloc, all)
}
