//! Why a release is stuck.

/// A rule that may leave clients stuck, in the order in which reasons are looked for.
#[derive(Clone, Copy)]
pub enum Cause {
    /// The target is withdrawn.
    Withdrawn,
    /// The target's audience leaves the cohort out.
    Audience,
    /// A stone, which no payload jumps, can't be reached.
    Stone,
    /// The release is below a floor.
    Floor,
    /// The release is above the target, and the track allows no downgrade.
    Downgrade,
}

/// Why no chain leads from a release to the target.
#[derive(Clone, Copy)]
pub enum Reason {
    /// This rule: without it alone a chain would lead there. It is the first such rule.
    Alone(Cause),
    /// Several rules: none of them alone would free the release.
    Several,
}
