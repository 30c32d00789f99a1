//! What holds of all cohorts and of all their changes, as the contracts of functions that do nothing.

ghost use Rattle.buckets.specs.Laws.{BatchesGrow, CutOffIsCounted, CutOffIsExact, KeepsTargets, MovesAreExact, PartsAreAlike};

// rule: Parts of a cohort
/// Says that in each part of a cohort's buckets all have one lane before a change and one after it, and that `cut_off` and
/// `moves` return the right buckets and no others.
pub fn parts_are_alike()
    ensures alike { PartsAreAlike }
    ensures cut_off { CutOffIsExact }
    ensures counted { CutOffIsCounted }
    ensures moves { MovesAreExact }
{}

// rule: Nobody is cut off
/// Says that no client loses its target if `cuts_nobody_off` says so, whatever it hints, and that a published batch leaves
/// cohorts in their places.
pub fn clients_keep_targets()
    ensures kept { KeepsTargets }
    ensures grown { BatchesGrow }
{}
