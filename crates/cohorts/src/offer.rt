// Which releases the clients of a cohort are offered, and which of them they are meant to have.

ghost use Rattle.std.specs.Prelude.{◌≡◌};
ghost use Rattle.std.specs.List.{list_any};
ghost use Rattle.std.specs.Str.{bytes_eq};
ghost use Rattle.cohorts.specs.Offers.{highest_offered, is_offered, is_offered_within, is_open_to, target_of, track_target};

use crate::pin::Pin;
use crate::track::Lane;
use catalogue::{Cohort, Release, Version};
use values::Text;

fn is_among(name: &str, names: &[Text]) -> bool
    ensures { result ≡ list_any (bytes_eq name.now) names.now }
{
    names.iter().any(|other| name == other.as_str())
}

// rule: Audience
fn is_open_to(cohort: &Cohort, release: &Release) -> bool
    ensures { result ≡ is_open_to cohort.now release.now }
{
    match &release.audience {
        Some(names) => is_among(cohort.name.as_str(), names.as_slice()),
        None => true,
    }
}

// rule: Offered release
/// Whether a release is offered to those clients of a cohort of its app that have a pin.
///
/// It isn't if it is withdrawn, if it has an audience that does not name the cohort, or if the pin does not match
/// its version.
pub fn is_offered(cohort: &Cohort, pin: &Pin, release: &Release) -> bool
    ensures { result ≡ is_offered cohort.now pin.now release.now }
{
    !release.withdrawn && (is_open_to(cohort, release) && pin.matches(&release.version))
}

fn is_offered_within(cohort: &Cohort, pin: &Pin, limit: &Version, release: &Release) -> bool
    ensures { result ≡ is_offered_within cohort.now pin.now limit.now release.now }
{
    !limit.is_below(&release.version) && is_offered(cohort, pin, release)
}

fn find_highest(
    releases: &[Release],
    cohort: &Cohort,
    pin: &Pin,
    limit: &Version,
) -> Option<Version>
    ensures { result ≡ highest_offered releases.now cohort.now pin.now limit.now }
{
    let highest = releases
        .iter()
        .rev()
        .find(|release| is_offered_within(cohort, pin, limit, release))?;
    Some(highest.version)
}

// rule: Target of a lane
fn target_of(cohort: &Cohort, lane: Lane) -> Option<Version>
    ensures { result ≡ target_of cohort.now lane }
{
    match lane {
        Lane::Target => cohort.target,
        Lane::Held => cohort.held,
    }
}

// rule: Target of a track
/// Returns the version that the clients of a cohort's lane and a pin are meant to have, if any.
///
/// It is the lane's target, offered or not, if the pin is `Any`. Under any other pin it is the highest release that
/// is offered to the cohort's clients of that pin and isn't above the lane's target. The releases are those of the
/// cohort's app; only such a pin is looked for among them.
pub fn track_target(releases: &[Release], cohort: &Cohort, lane: Lane, pin: &Pin) -> Option<Version>
    ensures { result ≡ track_target releases.now cohort.now lane pin.now }
{
    let target = target_of(cohort, lane)?;
    match pin {
        Pin::Any => Some(target),
        _ => find_highest(releases, cohort, pin, &target),
    }
}
