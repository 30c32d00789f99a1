ghost use Rattle.std.specs.Prelude.{◌≡◌};
ghost use Rattle.std.specs.Result.{result_err};
ghost use Rattle.catalogue.specs.Draft.{IsIndexed};
ghost use Rattle.catalogue.specs.Edits.Releases.{tests_of_add_release};
ghost use Rattle.catalogue.specs.Faults.{first_fault};
ghost use Rattle.catalogue.specs.Validity.{IsValid};

use crate::draft::{Draft, spelled_version};
use crate::fault::Fault;
use crate::form::{hash_named, hash_of, is_package_name, is_size};
use crate::lookup::{has_hash, has_release};
use values::Text;

const MAX_RELEASES: usize = 512;

/// Adds a release to an app.
#[derive(Clone)]
pub struct AddRelease {
    /// The app's identifier, in any case.
    pub app: Text,
    /// The release's version: 1 to 4 decimal components without leading zeros.
    pub version: Text,
    /// The name of its full package: at most 128 ASCII letters, digits, `.`, `_` and `-`, at least one,
    /// and no `.` at the front.
    pub name: Text,
    /// The bytes of its full package, 1 to 2^40.
    pub size: u64,
    /// The SHA-256 of its full package: 64 lower-case hexadecimal digits.
    pub sha256: Text,
}

// Written out, so that no caller proves again how each part is dropped.
impl Drop for AddRelease {
    fn drop(self) {
        let AddRelease {
            app: _,
            version: _,
            name: _,
            size: _,
            sha256: _,
        } = self;
    }
}

impl AddRelease {
    /// Returns the edit's first fault against the draft, if it has one.
    pub(crate) fn check(&self, draft: &Draft) -> Result<(), Fault>
        requires indexed { IsIndexed draft.now }
        requires valid { IsValid draft.now.apps }
        ensures { result_err result ≡ first_fault (tests_of_add_release draft.now.apps self.now) }
    {
        let releases = draft.named_app(&self.app)?.releases.as_slice();
        let version = spelled_version(&self.version)?;
        if hash_of(self.sha256.as_str()).is_none() {
            return Err(Fault::BadHash);
        }
        if !is_size(self.size) {
            return Err(Fault::BadSize);
        }
        if !is_package_name(self.name.as_str()) {
            return Err(Fault::BadName);
        }
        if has_release(releases, &version) {
            return Err(Fault::ReleaseExists);
        }
        if has_hash(releases, &hash_named(self.sha256.as_str())) {
            return Err(Fault::HashTaken);
        }
        if draft.packages.find(self.name.as_str()).is_some() {
            return Err(Fault::NameTaken);
        }
        if releases.len() >= MAX_RELEASES {
            return Err(Fault::Limit);
        }
        Ok(())
    }
}
