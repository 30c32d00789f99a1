// The buckets of a cohort, before a change and after it.

ghost use Rattle.std.specs.Prelude.{◌≡◌, ◌++◌, ◌≤◌, IfOk, OnOk, filter};
ghost use Rattle.cohorts.specs.Tracks.{lane_of};
ghost use Rattle.buckets.specs.Buckets.{IsExactly, cut_off_of, has_target, is_cut_off, is_moved, bucket_target, is_same_target, lower, moves_of, part, parts_of, upper, width, width_of};

use crate::laws;
use catalogue::{Cohort, Version};
use std::alloc::{AllocError, Global};

/// Consecutive buckets of a cohort, which are numbered from 0 to 999.
#[derive(Clone, Copy)]
pub struct Span {
    /// The first bucket.
    pub start: u64,
    /// The bucket after the last one.
    pub end: u64,
}

// rule: Target of a bucket
/// Returns whether the clients of a bucket have a target: that of the cohort below its share, and its held one from there on.
pub fn has_target(cohort: &Cohort, bucket: u64) -> bool
    ensures { result ≡ has_target cohort.now bucket }
{
    if bucket < cohort.share {
        cohort.target.is_some()
    } else {
        cohort.held.is_some()
    }
}

// rule: Cut off bucket
/// Whether the clients of a bucket have a target in one cohort and none in another.
pub(crate) fn is_cut_off(before: &Cohort, after: &Cohort, bucket: u64) -> bool
    ensures { result ≡ is_cut_off before.now after.now bucket }
{
    has_target(before, bucket) && !has_target(after, bucket)
}

// Whether two targets are one version, or both are none.
fn is_same_target(one: &Option<Version>, other: &Option<Version>) -> bool
    ensures { result ≡ is_same_target one.now other.now }
{
    match (one, other) {
        (Some(one), Some(other)) => one.is_equal(other),
        (None, None) => true,
        _ => false,
    }
}

// The target of a bucket.
fn target_at(cohort: &Cohort, bucket: u64) -> &Option<Version>
    ensures { result.now ≡ bucket_target cohort.now bucket }
{
    if bucket < cohort.share {
        &cohort.target
    } else {
        &cohort.held
    }
}

// rule: Moved bucket
// Whether the clients of a bucket have different targets in two cohorts.
fn is_moved(before: &Cohort, after: &Cohort, bucket: u64) -> bool
    ensures { result ≡ is_moved before.now after.now bucket }
{
    !is_same_target(target_at(before, bucket), target_at(after, bucket))
}

// Adds the span from one bucket up to another, unless it is empty.
fn push_part(spans: &mut Vec<Span>, start: u64, end: u64) -> Result<(), AllocError>
    ensures { OnOk result (spans.new.items ≡ spans.old.items ++ part start end) }
{
    if start < end {
        spans.push(Span { start, end })?;
    }
    Ok(())
}

/// The smaller one of two cohorts' shares.
pub(crate) fn lower(before: &Cohort, after: &Cohort) -> u64
    ensures { result ≡ lower before.now after.now }
{
    if before.share < after.share {
        before.share
    } else {
        after.share
    }
}

/// The larger one of two cohorts' shares.
pub(crate) fn upper(before: &Cohort, after: &Cohort) -> u64
    ensures { result ≡ upper before.now after.now }
{
    if before.share < after.share {
        after.share
    } else {
        before.share
    }
}

// rule: Parts of a cohort
/// Returns the buckets below both shares, those between them, and those above both; none of these is empty.
///
/// In each, all clients are on one lane before the change and on one after it. Out of memory is the only error.
pub fn parts(alloc: Global, before: &Cohort, after: &Cohort) -> Result<Vec<Span>, AllocError>
    ensures { IfOk result (λ spans. spans.items ≡ parts_of before.now after.now) }
{
    let first = lower(before, after);
    let second = upper(before, after);
    let mut spans = Vec::new(alloc);
    push_part(&mut spans, 0, first)?;
    push_part(&mut spans, first, second)?;
    push_part(&mut spans, second, 1000)?;
    Ok(spans)
}

// rule: Cut off bucket
/// Returns the buckets whose clients have a target before a change and none after it. Out of memory is the only error.
pub fn cut_off(alloc: Global, before: &Cohort, after: &Cohort) -> Result<Vec<Span>, AllocError>
    ensures spans { IfOk result (λ spans. spans.items ≡ cut_off_of before.now after.now) }
    ensures exact { IfOk result (λ spans. IsExactly spans.items (is_cut_off before.now after.now)) }
{
    laws::parts_are_alike();
    let parts = parts(alloc, before, after)?;
    let mut found = Vec::new(alloc);
    for span in &parts {
        if is_cut_off(before, after, span.start) {
            found.push(*span)?;
        }
    }
    Ok(found)
}

// rule: Moved bucket
/// Returns the buckets whose clients get another target by a change, or lose theirs. Out of memory is the only error.
pub fn moves(alloc: Global, before: &Cohort, after: &Cohort) -> Result<Vec<Span>, AllocError>
    ensures spans { IfOk result (λ spans. spans.items ≡ moves_of before.now after.now) }
    ensures exact { IfOk result (λ spans. IsExactly spans.items (is_moved before.now after.now)) }
{
    laws::parts_are_alike();
    let parts = parts(alloc, before, after)?;
    let mut found = Vec::new(alloc);
    for span in &parts {
        if is_moved(before, after, span.start) {
            found.push(*span)?;
        }
    }
    Ok(found)
}

/// Counts the buckets of some spans, each as often as spans have it.
pub fn width_of(spans: &[Span]) -> u128
    ensures { result ≡ width_of spans.now }
{
    let mut total: u128 = 0;
    for span in spans {
        if span.start < span.end {
            total += (span.end - span.start) as u128;
        }
    }
    total
}
