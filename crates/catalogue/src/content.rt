ghost use Rattle.std.specs.Prelude.{◌≡◌, IfOk, position};
ghost use Rattle.catalogue.specs.Lookups.{is_release};

use crate::version::Version;
use std::alloc::AllocError;
use values::{Items, Shared, SharedItems, Text};

/// An app with all that the catalogue holds of it.
pub struct App {
    /// Its identifier, as it was added; identifiers compare without regard to ASCII case.
    pub id: Text,
    /// Its cohorts in the order of their addition, the default cohort first; 1 to 32.
    pub cohorts: Items<Cohort>,
    /// Its releases by ascending version; at most 512.
    pub releases: SharedItems<Release>,
    /// Its differentials by ascending `from`, then by ascending `to`; at most 16384.
    pub diffs: SharedItems<Shared<Diff>>,
}

// Written out, so that no caller proves again how each part is dropped.
impl Drop for App {
    fn drop(self) {
        let App {
            id: _,
            cohorts: _,
            releases: _,
            diffs: _,
        } = self;
    }
}

// The derived clone of the cohorts, with its equation, which the clone of an app rests on.
fn clone_cohorts(cohorts: &Items<Cohort>) -> Result<Items<Cohort>, AllocError>
    ensures { IfOk result (λ copy. copy ≡ cohorts.now) }
{
    cohorts.clone()
}

impl Clone for App {
    ghost use Rattle.std.specs.Prelude.{◌≡◌};

    ghost is_clone = { λ app copy. copy ≡ app };

    fn clone(&self) -> Result<App, AllocError> {
        let id = self.id.clone()?;
        let cohorts = clone_cohorts(&self.cohorts)?;
        let releases = self.releases.clone()?;
        let diffs = self.diffs.clone()?;
        Ok(App {
            id,
            cohorts,
            releases,
            diffs,
        })
    }
}

impl App {
    /// Finds the index of the app's release by its version, whatever the order of its releases.
    pub fn find_release(&self, version: &Version) -> Option<usize>
        ensures { result ≡ position (is_release version.now) self.now.releases }
    {
        self.releases
            .as_slice()
            .iter()
            .position(|release| version.is_equal(&release.version))
    }
}

/// A release of an app, with its full package.
#[derive(Clone)]
pub struct Release {
    /// Its version, used once in the app.
    pub version: Version,
    /// The version's string, as it was added.
    pub spelled: Text,
    /// The name of its full package, used once in the catalogue.
    pub name: Text,
    /// The bytes of its full package, 1 to 2^40.
    pub size: u64,
    /// The SHA-256 of its full package, used once in the app.
    pub hash: [u8; 32],
    /// Whether no differential or full package may jump it.
    pub stone: bool,
    /// Whether it is offered to nobody.
    pub withdrawn: bool,
    /// The names of the cohorts that it is open to; all cohorts if there is none.
    pub audience: Option<Items<Text>>,
    /// Its floor: the lowest version that may be updated to it; 0 if any may.
    pub floor: Version,
}

// Written out, so that no caller proves again how each part is dropped.
impl Drop for Release {
    fn drop(self) {
        let Release {
            version: _,
            spelled: _,
            name: _,
            size: _,
            hash: _,
            stone: _,
            withdrawn: _,
            audience: _,
            floor: _,
        } = self;
    }
}

/// A differential package, which leads from one release of an app to a higher one.
#[derive(Clone)]
pub struct Diff {
    /// The version of the release that it starts at.
    pub from: Version,
    /// The version of the release that it leads to.
    pub to: Version,
    /// The name of its package, used once in the catalogue.
    pub name: Text,
    /// The bytes of its package, 1 to 2^40.
    pub size: u64,
    /// The SHA-256 of its package.
    pub hash: [u8; 32],
}

// Written out, so that no caller proves again how each part is dropped.
impl Drop for Diff {
    fn drop(self) {
        let Diff {
            from: _,
            to: _,
            name: _,
            size: _,
            hash: _,
        } = self;
    }
}

/// A group of an app's clients that is served alike.
#[derive(Clone)]
pub struct Cohort {
    /// Its name, used once in the app.
    pub name: Text,
    /// The version of the release that it is meant to have, if any.
    pub target: Option<Version>,
    /// The version of the release that its held clients are meant to have, if any.
    pub held: Option<Version>,
    /// How many of 1000 clients have the target, 0 to 1000; the others are held.
    pub share: u64,
    /// Whether its clients may be downgraded to a lower target.
    pub rollback: bool,
    /// Whether a client's hint may name it.
    pub hintable: bool,
}

// Written out, so that no caller proves again how each part is dropped.
impl Drop for Cohort {
    fn drop(self) {
        let Cohort {
            name: _,
            target: _,
            held: _,
            share: _,
            rollback: _,
            hintable: _,
        } = self;
    }
}
