ghost use Rattle.std.specs.Prelude.{◌≡◌, ◌<◌, length};
ghost use Rattle.catalogue.specs.Lookups.{releases_at};
ghost use Rattle.payload_graph.specs.Places.{place_of, version_at, IsWithin};

use crate::fingerprint::find_fingerprint;
use catalogue::{Catalogue, Release, Version};

/// Where a client is among the releases of an app.
#[derive(Clone, Copy)]
pub enum Place {
    /// At the release of an index, by ascending version.
    At(usize),
    /// At no release of the app, but at a version.
    Outside(Version),
}

// rule: Place of a client
/// Finds where a client is among the releases of the app at an index, which is in range.
///
/// It is at the release whose fingerprint `fp` is, whatever its version. With any other string it is
/// outside, at the version that `version` counts as by `Version::lenient`.
pub fn place_of(catalogue: &Catalogue, app: usize, fp: &str, version: &str) -> Place
    requires { app < length catalogue.now }
    ensures place { result ≡ place_of (releases_at catalogue.now app) fp.now version.now }
    ensures within { IsWithin (releases_at catalogue.now app) result }
{
    let version = Version::lenient(version);
    match find_fingerprint(catalogue, app, fp, &version) {
        Some(release) => Place::At(release),
        None => Place::Outside(version),
    }
}

/// The version of a place, `None` at a release that isn't there.
pub(crate) fn version_at(releases: &[Release], place: &Place) -> Option<Version>
    ensures { result ≡ version_at releases.now place.now }
{
    match place {
        Place::At(release) => releases.get(*release).map(|there| there.version),
        Place::Outside(version) => Some(*version),
    }
}
