//! The largest one of some values of a track's releases.

ghost use Rattle.std.specs.Prelude.{◌≡◌, IfOk, map};
ghost use Rattle.reviews.specs.Largest.{larger_of, sum_of, value_at, IsLargest};

use crate::outcome::Outcome;
use std::alloc::{AllocError, Global};

/// The largest one of some values of a track's releases.
#[derive(Clone, Copy)]
pub struct Largest {
    /// The index of the lowest release that has it.
    pub from: usize,
    /// The value.
    pub value: u64,
}

fn sum_of(outcome: &Outcome) -> Option<u64>
    ensures { result ≡ sum_of outcome.now }
{
    match outcome {
        Outcome::Next { sum, .. } => Some(*sum),
        _ => None,
    }
}

fn all_sums(alloc: Global, outcomes: &[Outcome]) -> Result<Vec<Option<u64>>, AllocError>
    ensures { IfOk result (λ sums. sums.items ≡ map sum_of outcomes.now) }
{
    outcomes
        .iter()
        .map(|outcome| sum_of(outcome))
        .collect(alloc)
}

fn value_at(values: &[Option<u64>], release: usize) -> Option<u64>
    ensures { result ≡ value_at values.now release }
{
    match values.get(release) {
        Some(value) => *value,
        None => None,
    }
}

// The larger one of the largest value so far and that of the next release.
fn larger(best: Option<Largest>, from: usize, value: Option<u64>) -> Option<Largest>
    ensures { result ≡ larger_of best from value }
{
    let Some(value) = value else {
        return best;
    };
    match best {
        Some(known) if value <= known.value => Some(known),
        _ => Some(Largest { from, value }),
    }
}

// rule: Largest of a track
/// Finds the largest value of a track's releases, `None` if no release has one.
pub(crate) fn find_largest(values: &[Option<u64>]) -> Option<Largest>
    ensures { IsLargest values.now result }
{
    let mut best = None;
    for index in 0..values.len() {
        best = larger(best, index, value_at(values, index));
    }
    best
}

/// Finds the largest of the least sums of a track's releases, `None` if no release is before a chain.
pub(crate) fn largest_sum(
    alloc: Global,
    outcomes: &[Outcome],
) -> Result<Option<Largest>, AllocError>
    ensures { IfOk result (λ largest. IsLargest (map sum_of outcomes.now) largest) }
{
    let sums = all_sums(alloc, outcomes)?;
    let largest = find_largest(sums.as_slice());
    Ok(largest)
}
