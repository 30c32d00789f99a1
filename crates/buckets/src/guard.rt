// Whether a change of an app's cohorts leaves a client without a target.

ghost use Rattle.std.specs.Prelude.{◌≡◌, ℕ, ◌<◌, false, length, true};
ghost use Rattle.std.specs.List.{list_any};
ghost use Rattle.cohorts.specs.Tracks.{cohort_at};
ghost use Rattle.buckets.specs.Buckets.{is_cut_off, part};
ghost use Rattle.buckets.specs.Clients.{CutsNobodyOff, CutsSomebodyOff, has_cut_off, is_opened, keeps_pair, may_move};
ghost use Rattle.buckets.specs.declared.change.Span.{Span};

use crate::change::{is_cut_off, lower, upper};
use catalogue::Cohort;

// Whether a hint may lead to the cohort at an index.
fn is_open(cohorts: &[Cohort], index: usize) -> bool
    ensures { result ≡ (cohort_at cohorts.now index).hintable }
{
    match cohorts.get(index) {
        Some(cohort) => cohort.hintable,
        None => false,
    }
}

// Whether hints lead to the cohort at an index after a change, and didn't before it.
fn is_opened(before: &[Cohort], after: &[Cohort], index: usize) -> bool
    ensures { result ≡ is_opened before.now after.now index }
{
    is_open(after, index) && !is_open(before, index)
}

// rule: Cohorts of a client
// Whether a client of one cohort before a change may be in another after it.
fn may_move(before: &[Cohort], after: &[Cohort], one: usize, other: usize) -> bool
    ensures { result ≡ may_move before.now after.now one other }
{
    one == other || (is_opened(before, after, other) || is_opened(after, before, one))
}

// Whether a part of the buckets isn't empty, and is cut off.
fn cuts_part(before: &Cohort, after: &Cohort, start: u64, end: u64) -> bool
    ensures { result ≡ list_any (λ (span : Span). is_cut_off before.now after.now span.start) (part start end) }
{
    start < end && is_cut_off(before, after, start)
}

// Whether some part of the buckets is cut off.
fn has_cut_off(before: &Cohort, after: &Cohort) -> bool
    ensures { result ≡ has_cut_off before.now after.now }
{
    let first = lower(before, after);
    let second = upper(before, after);
    let low = cuts_part(before, after, 0, first);
    let middle = cuts_part(before, after, first, second);
    let high = cuts_part(before, after, second, 1000);
    low || (middle || high)
}

// Whether no client is cut off who may be in one cohort before a change and in another after it.
fn keeps_pair(before: &[Cohort], after: &[Cohort], one: usize, other: usize) -> bool
    requires one { one < length before.now }
    requires other { other < length after.now }
    ensures { result ≡ keeps_pair before.now after.now one other }
{
    !may_move(before, after, one, other) || !has_cut_off(&before[one], &after[other])
}

// The same of one cohort before a change and of all after it.
fn keeps_from(before: &[Cohort], after: &[Cohort], one: usize) -> bool
    requires one { one < length before.now }
    ensures kept { result ≡ true → (other : ℕ) → other < length after.now → keeps_pair before.now after.now one other ≡ true }
    ensures cut { result ≡ false → (other : ℕ) × (other < length after.now) × (keeps_pair before.now after.now one other ≡ false) }
{
    for other in 0..after.len() {
        if !keeps_pair(before, after, one, other) {
            return false;
        }
    }
    true
}

// rule: Nobody is cut off
/// Returns whether each client that has a target by an app's cohorts before a change has one by those after it.
///
/// A client is in the same cohort before and after, or a hint leads it from one to another, since a cohort was opened to
/// hints or closed. `laws::clients_keep_targets` says it of clients. It takes no memory.
pub fn cuts_nobody_off(before: &[Cohort], after: &[Cohort]) -> bool
    ensures kept { result ≡ true → CutsNobodyOff before.now after.now }
    ensures cut { result ≡ false → CutsSomebodyOff before.now after.now }
{
    for one in 0..before.len() {
        if !keeps_from(before, after, one) {
            return false;
        }
    }
    true
}
