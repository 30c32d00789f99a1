//! The app, the cohort and the target of a track.

ghost use Rattle.std.specs.Prelude.{◌≡◌, ◌≤◌, length, IfSome, option_map};
ghost use Rattle.certificates.specs.Strings.{target_at, track_at};

use catalogue::{App, Catalogue, Cohort, Release};
use cohorts::track_target;
use payload_graph::TrackKey;

/// The app and the cohort of a key, if they are there.
pub(crate) fn find_track<'a>(
    catalogue: &'a Catalogue,
    key: &TrackKey,
) -> Option<(&'a App, &'a Cohort)>
    ensures track { option_map (λ track. (track.0.now, track.1.now)) result ≡ track_at catalogue.now key.now }
    ensures small { IfSome result (λ track. length track.0.now.releases ≤ 512) }
{
    catalogue.validity();
    match catalogue.apps().get(key.app) {
        None => None,
        Some(app) => match app.cohorts.as_slice().get(key.cohort) {
            None => None,
            Some(cohort) => Some((app, cohort)),
        },
    }
}

/// The release that the clients of a key are meant to have, if any.
pub(crate) fn find_target<'a>(app: &'a App, cohort: &Cohort, key: &TrackKey) -> Option<&'a Release>
    ensures { option_map (λ release. release.now) result ≡ target_at app.now cohort.now key.now }
{
    match track_target(app.releases.as_slice(), cohort, key.lane, &key.pin) {
        None => None,
        Some(version) => match app.find_release(&version) {
            None => None,
            Some(index) => app.releases.as_slice().get(index),
        },
    }
}
