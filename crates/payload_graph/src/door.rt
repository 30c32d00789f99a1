//! Releases as destinations.

ghost use Rattle.std.specs.Prelude.{◌≡◌, true, IfOk};
ghost use Rattle.values.specs.Ordered.{ascend};
ghost use Rattle.catalogue.specs.Lookups.{place_of};
ghost use Rattle.catalogue.specs.Validity.{is_release_below};
ghost use Rattle.payload_graph.specs.Net.{door_of, doors_of, opens};

use catalogue::{Cohort, Release, Version, lookup};
use cohorts::{Pin, is_offered};
use std::alloc::{AllocError, Global};

/// A release as a destination of a track's clients.
#[derive(Clone, Copy)]
pub struct Door {
    /// The release's index, by ascending version.
    pub to: usize,
    /// The bytes of its full package.
    pub bytes: u64,
    /// Whether it is offered to the clients.
    pub offered: bool,
    /// Whether it is a stone, which no payload jumps.
    pub stone: bool,
    /// The index of the lowest release from which clients may update to it: 0 if they may from all, and
    /// the number of releases if they may from none.
    pub floor: usize,
}

impl Door {
    // rule: Floor
    /// Whether clients at a release may update through it: it is offered, and they aren't below its floor.
    pub fn opens(&self, from: usize) -> bool
        ensures { result ≡ opens from self.now }
    {
        self.floor <= from && self.offered
    }
}

// The index of the lowest release that isn't below a version. Few releases have a floor, so the lowest one
// is tried before the search by halves.
fn floor_of(releases: &[Release], version: &Version) -> usize
    requires { ascend is_release_below releases.now ≡ true }
    ensures { result ≡ place_of version.now releases.now }
{
    match releases.first() {
        Some(lowest) if lowest.version.is_below(version) => lookup::place_of(releases, version),
        _ => 0,
    }
}

fn door_of(cohort: &Cohort, pin: &Pin, releases: &[Release], to: usize, release: &Release) -> Door
    requires { ascend is_release_below releases.now ≡ true }
    ensures { result ≡ door_of cohort.now pin.now releases.now to release.now }
{
    Door {
        to,
        bytes: release.size,
        offered: is_offered(cohort, pin, release),
        stone: release.stone,
        floor: floor_of(releases, &release.floor),
    }
}

/// The releases of an app as destinations of a cohort's clients of a pin, in order.
pub(crate) fn doors_of(
    alloc: Global,
    cohort: &Cohort,
    pin: &Pin,
    releases: &[Release],
) -> Result<Vec<Door>, AllocError>
    requires { ascend is_release_below releases.now ≡ true }
    ensures { IfOk result (λ doors. doors.items ≡ doors_of cohort.now pin.now releases.now) }
{
    releases
        .iter()
        .enumerate()
        .map(|(to, release)| door_of(cohort, pin, releases, to, release))
        .collect(alloc)
}
