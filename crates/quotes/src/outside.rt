//! What a table says of clients that are at no release.

ghost use Rattle.std.specs.Prelude.{◌≡◌, ℕ, ◌+◌, ◌≤◌, ◌||◌, All, true, false, if◌then◌else◌, IfSome, Option, None, length, option_map};
ghost use Rattle.std.specs.List.{AllWithin};
ghost use Rattle.values.specs.Ordered.{ascend};
ghost use Rattle.catalogue.specs.Versions.{is_below};
ghost use Rattle.catalogue.specs.Forms.{is_size};
ghost use Rattle.catalogue.specs.Validity.{is_release_below};
ghost use Rattle.payload_graph.specs.Permitted.{leads_down};
ghost use Rattle.price_cert.specs.Laws.{IsSmall};
ghost use Rattle.price_cert.specs.Rows.{price_of};
ghost use Rattle.quotes.specs.Outside.{best_with, is_stone_above, leads_to, may_fall, rises_to, sum_into, AreSmall, IsBest, IsWindow};

use catalogue::{Cohort, Release, Version};
use payload_graph::{TrackKey, is_offered_at, rolls_back};
use price_cert::Row;

/// A client at no release, on a track with a target.
#[derive(Drop)]
pub(crate) struct Visitor<'a> {
    /// The track's cohort.
    pub(crate) cohort: &'a Cohort,
    /// The track's key.
    pub(crate) key: &'a TrackKey,
    /// The track's target.
    pub(crate) target: Version,
    /// The client's version.
    pub(crate) version: Version,
}

/// A release that a client is best led to.
#[derive(Clone, Copy)]
pub(crate) struct Best {
    /// The release's index.
    pub(crate) to: usize,
    /// The sum of the whole chain, in bytes.
    pub(crate) sum: u64,
}

impl Visitor<'_> {
    fn is_below(&self, release: &Release) -> bool
        ensures { result ≡ is_below self.now.version release.now.version }
    {
        self.version.is_below(&release.version)
    }

    fn rises_to(&self, release: &Release) -> bool
        ensures { result ≡ rises_to self.now.target self.now.version release.now.version }
    {
        self.is_below(release) && !self.target.is_below(&release.version)
    }

    fn falls_to(&self, release: &Release) -> bool
        ensures { result ≡ leads_down self.now.target self.now.version release.now.version }
    {
        self.target.is_below(&self.version) && release.version.is_below(&self.version)
    }

    // Whether a client may be downgraded: it is above the target, and the track rolls back.
    fn may_fall(&self) -> bool
        ensures { result ≡ may_fall self.now.cohort.now self.now.key.now self.now.target self.now.version }
    {
        rolls_back(self.cohort, self.key) && self.target.is_below(&self.version)
    }

    // Whether the full package of a release is permitted, given whether a stone is between.
    // Seldom asked: out of line, it leaves the pass over all releases small.
    #[inline(never)]
    fn is_led_to(&self, release: &Release, blocked: bool) -> bool
        ensures { result ≡ leads_to self.now.cohort.now self.now.key.now self.now.target self.now.version blocked release.now }
    {
        is_offered_at(self.cohort, &self.key.pin, &self.version, release)
            && ((!blocked && self.rises_to(release))
                || (rolls_back(self.cohort, self.key) && self.falls_to(release)))
    }

    // Whether a stone above the client's version is at or before a release.
    fn is_blocked_by(&self, release: &Release, blocked: bool) -> bool
        ensures { result ≡ (blocked || is_stone_above self.now.version release.now) }
    {
        blocked || (release.stone && self.is_below(release))
    }

    // The sum by the full package of the next release, if it makes a way that is no worse than the best one before. A
    // package is only asked for permission if its sum is no larger.
    fn next_sum(
        &self,
        best: Option<Best>,
        release: &Release,
        row: &Row,
        blocked: bool,
    ) -> Option<u64>
        requires size { is_size release.now.size ≡ true }
        requires price { IfSome (price_of row.now) IsSmall }
        ensures { (sums : ℕ → Option ℕ) → (to : ℕ) →
            sums to ≡ (if leads_to self.now.cohort.now self.now.key.now self.now.target self.now.version blocked release.now
            then option_map (λ rest. release.now.size + rest) (price_of row.now) else None) →
            IsBest sums to best → IsBest sums (to + 1) (best_with best to result) }
    {
        let rest = row.price()?;
        let sum = release.size + rest;
        if let Some(known) = best {
            if known.sum < sum {
                return None;
            }
        }
        if !self.is_led_to(release, blocked) {
            return None;
        }
        Some(sum)
    }
}

/// A range of releases, by index.
#[derive(Clone, Copy)]
struct Window {
    /// The first one.
    start: usize,
    /// The one after the last.
    end: usize,
}

// How many releases aren't above a version, found by halves.
fn count_up_to(releases: &[Release], version: &Version) -> usize
    requires { ascend is_release_below releases.now ≡ true }
    ensures bound { result ≤ length releases.now }
    ensures before { AllWithin (λ release. is_below version.now release.version ≡ false) releases.now 0 result }
    ensures behind { AllWithin (λ release. is_below version.now release.version ≡ true) releases.now result (length releases.now) }
{
    catalogue::version_laws::order();
    releases.partition_point(|release| !version.is_below(&release.version))
}

// The releases that a client may be led to: those above its version up to the target, or all if it may be downgraded.
fn find_window(releases: &[Release], visitor: &Visitor<'_>, falls: bool) -> Window
    requires ascending { ascend is_release_below releases.now ≡ true }
    requires falls { falls ≡ may_fall visitor.now.cohort.now visitor.now.key.now visitor.now.target visitor.now.version }
    ensures { IsWindow releases.now visitor.now.cohort.now visitor.now.key.now visitor.now.target visitor.now.version result.start result.end }
{
    if falls {
        return Window {
            start: 0,
            end: releases.len(),
        };
    }
    let start = count_up_to(releases, &visitor.version);
    let end = count_up_to(releases, &visitor.target);
    Window { start, end }
}

/// Finds the best release that a client may be led to by its full package.
///
/// There is a row for each release. It goes through the releases above the client's version, up to the first stone
/// and not above the target; through all if the client may be downgraded.
#[inline(never)]
pub(crate) fn find_best(releases: &[Release], rows: &[Row], visitor: &Visitor<'_>) -> Option<Best>
    requires sized { length rows.now ≡ length releases.now }
    requires ascending { ascend is_release_below releases.now ≡ true }
    requires sizes { All (λ release. is_size release.size ≡ true) releases.now }
    requires prices { AreSmall rows.now }
    ensures { IsBest (sum_into releases.now visitor.now.cohort.now visitor.now.key.now visitor.now.target visitor.now.version rows.now)
        (length releases.now) result }
{
    catalogue::version_laws::order();
    let falls = visitor.may_fall();
    let Window { start, end } = find_window(releases, visitor, falls);
    let mut best = None;
    let mut blocked = false;
    for to in start..end {
        let release = &releases[to];
        if let Some(sum) = visitor.next_sum(best, release, &rows[to], blocked) {
            best = Some(Best { to, sum });
        }
        if release.stone {
            blocked = visitor.is_blocked_by(release, blocked);
            if blocked && !falls {
                return best;
            }
        }
    }
    best
}
