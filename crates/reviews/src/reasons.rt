//! The reasons of a track's stuck releases.

ghost use Rattle.std.specs.Prelude.{◌≡◌, ◌∷◌, ◌<◌, ℕ, [], List, All, IfOk, if◌then◌else◌, length};
ghost use Rattle.reviews.specs.Lifts.{lifted};
ghost use Rattle.reviews.specs.Reasons.{all_causes, reason_at, AreFirst, AreFreedAs};
ghost use Rattle.reviews.specs.Routes.{flag_at};
ghost use Rattle.reviews.specs.Tracks.{IsTrackOf};
ghost use Rattle.reviews.specs.declared.cause.Cause.{Cause};
ghost use Rattle.reviews.specs.declared.cause.Cause.TheVariants.{Downgrade};
ghost use Rattle.reviews.specs.declared.cause.Reason.TheVariants.{Alone};

use crate::cause::{Cause, Reason};
use crate::lifting::{is_idle, is_open_way, roads_without};
use catalogue::{App, Cohort};
use payload_graph::TrackKey;
use std::alloc::{AllocError, Global};

/// A track of an app: its cohort, and the index of its target.
#[derive(Drop)]
pub(crate) struct Subject<'a> {
    /// The app.
    pub(crate) app: &'a App,
    /// The track's key.
    pub(crate) key: &'a TrackKey,
    /// The track's cohort.
    pub(crate) cohort: &'a Cohort,
    /// The index of the track's target.
    pub(crate) target: usize,
}

impl Subject<'_> {
    // Flags the releases that have a chain without a rule, by a search.
    fn searched_without(&self, alloc: Global, cause: Cause) -> Result<Vec<bool>, AllocError>
        requires { IsTrackOf self.now.app.now self.now.key.now self.now.cohort.now self.now.target }
        ensures { IfOk result (λ flags. AreFreedAs self.now.app.now self.now.key.now cause flags.items) }
    {
        catalogue::version_laws::order();
        payload_graph::laws::fulls();
        let releases = self.app.releases.as_slice();
        let roads = roads_without(alloc, cause, self.cohort, self.key, releases, self.target)?;
        let flags = roads.flags(alloc)?;
        Ok(flags)
    }

    // Flags the releases that have a chain if downgrades are allowed; it searches only if one may have none.
    fn freed_by_downgrades(&self, alloc: Global) -> Result<Vec<bool>, AllocError>
        requires { IsTrackOf self.now.app.now self.now.key.now self.now.cohort.now self.now.target }
        ensures { IfOk result (λ flags. AreFreedAs self.now.app.now self.now.key.now Downgrade flags.items) }
    {
        payload_graph::laws::fulls();
        let releases = self.app.releases.as_slice();
        if is_open_way(self.cohort, releases, &releases[self.target]) {
            let flags = vec![in alloc; true; releases.len()]?;
            return Ok(flags);
        }
        self.searched_without(alloc, Cause::Downgrade)
    }

    // Flags the releases that have a chain without a rule.
    fn freed_without(&self, alloc: Global, cause: Cause) -> Result<Vec<bool>, AllocError>
        requires { IsTrackOf self.now.app.now self.now.key.now self.now.cohort.now self.now.target }
        ensures { IfOk result (λ flags. AreFreedAs self.now.app.now self.now.key.now cause flags.items) }
    {
        match cause {
            Cause::Downgrade => self.freed_by_downgrades(alloc),
            _ => self.searched_without(alloc, cause),
        }
    }

    // Puts a rule before those that were looked at.
    fn lift(
        &self,
        alloc: Global,
        cause: Cause,
        reasons: Vec<Reason>,
    ) -> Result<Vec<Reason>, AllocError>
        requires track { IsTrackOf self.now.app.now self.now.key.now self.now.cohort.now self.now.target }
        requires sized { length reasons.items ≡ length self.now.app.now.releases }
        ensures first { IfOk result (λ next. (causes : List Cause) → AreFirst self.now.app.now self.now.key.now causes reasons.items →
            AreFirst self.now.app.now self.now.key.now (cause ∷ causes) next.items) }
        ensures sized { IfOk result (λ next. length next.items ≡ length self.now.app.now.releases) }
    {
        let flags = self.freed_without(alloc, cause)?;
        let mut next = reasons;
        mark(next.as_mut_slice(), flags.as_slice(), cause);
        Ok(next)
    }

    // Does the same, and searches only if some release isn't the same without the rule.
    fn lift_unless_idle(
        &self,
        alloc: Global,
        cause: Cause,
        reasons: Vec<Reason>,
    ) -> Result<Vec<Reason>, AllocError>
        requires track { IsTrackOf self.now.app.now self.now.key.now self.now.cohort.now self.now.target }
        requires sized { length reasons.items ≡ length self.now.app.now.releases }
        ensures first { IfOk result (λ next. (causes : List Cause) → AreFirst self.now.app.now self.now.key.now causes reasons.items →
            AreFirst self.now.app.now self.now.key.now (cause ∷ causes) next.items) }
        ensures sized { IfOk result (λ next. length next.items ≡ length self.now.app.now.releases) }
    {
        let releases = self.app.releases.as_slice();
        if is_idle(cause, &releases[self.target].version, releases) {
            Ok(reasons)
        } else {
            self.lift(alloc, cause, reasons)
        }
    }

    // rule: Reason of a stuck release
    /// The reason of each release of the app, which counts if the release is stuck.
    pub(crate) fn reasons(&self, alloc: Global) -> Result<Vec<Reason>, AllocError>
        requires { IsTrackOf self.now.app.now self.now.key.now self.now.cohort.now self.now.target }
        ensures { IfOk result (λ reasons. AreFirst self.now.app.now self.now.key.now all_causes reasons.items) }
    {
        let none = vec![in alloc; Reason::Several; self.app.releases.as_slice().len()]?;
        let downgrade = self.lift(alloc, Cause::Downgrade, none)?;
        let floor = self.lift_unless_idle(alloc, Cause::Floor, downgrade)?;
        let stone = self.lift_unless_idle(alloc, Cause::Stone, floor)?;
        let audience = self.lift_unless_idle(alloc, Cause::Audience, stone)?;
        let withdrawn = self.lift_unless_idle(alloc, Cause::Withdrawn, audience)?;
        Ok(withdrawn)
    }
}

// Gives the flagged releases a rule as their reason.
fn mark(reasons: &mut [Reason], flags: &[bool], cause: Cause)
    requires { length flags.now ≡ length reasons.old }
    ensures { (release : ℕ) → release < length reasons.old →
        reason_at reasons.new release ≡ (if flag_at flags.now release then Alone cause else reason_at reasons.old release) }
{
    for (index, reason) in reasons.iter_mut().enumerate() {
        if flags[index] {
            *reason = Reason::Alone(cause);
        }
    }
}
