ghost use Rattle.std.specs.Prelude.{◌≡◌};
ghost use Rattle.std.specs.Result.{result_err};
ghost use Rattle.catalogue.specs.Draft.{IsIndexed};
ghost use Rattle.catalogue.specs.Edits.Diffs.{tests_of_add_diff};
ghost use Rattle.catalogue.specs.Faults.{first_fault};
ghost use Rattle.catalogue.specs.Validity.{IsValid};

use crate::draft::{Draft, named_release, spelled_version};
use crate::fault::Fault;
use crate::form::{hash_of, is_package_name, is_size};
use crate::lookup::has_diff;
use values::Text;

const MAX_DIFFS: usize = 16384;

/// Adds a differential package to an app, from one of its releases to a higher one.
#[derive(Clone)]
pub struct AddDiff {
    /// The app's identifier, in any case.
    pub app: Text,
    /// The version of the release that it starts at.
    pub from: Text,
    /// The version of the release that it leads to, which is higher.
    pub to: Text,
    /// The name of its package, by the same rule as a release's.
    pub name: Text,
    /// The bytes of its package, 1 to 2^40.
    pub size: u64,
    /// The SHA-256 of its package: 64 lower-case hexadecimal digits.
    pub sha256: Text,
}

// Written out, so that no caller proves again how each part is dropped.
impl Drop for AddDiff {
    fn drop(self) {
        let AddDiff {
            app: _,
            from: _,
            to: _,
            name: _,
            size: _,
            sha256: _,
        } = self;
    }
}

impl AddDiff {
    /// Returns the edit's first fault against the draft, if it has one.
    pub(crate) fn check(&self, draft: &Draft) -> Result<(), Fault>
        requires indexed { IsIndexed draft.now }
        requires valid { IsValid draft.now.apps }
        ensures { result_err result ≡ first_fault (tests_of_add_diff draft.now.apps self.now) }
    {
        let app = draft.named_app(&self.app)?;
        let from = spelled_version(&self.from)?;
        let to = spelled_version(&self.to)?;
        if hash_of(self.sha256.as_str()).is_none() {
            return Err(Fault::BadHash);
        }
        if !is_size(self.size) {
            return Err(Fault::BadSize);
        }
        if !is_package_name(self.name.as_str()) {
            return Err(Fault::BadName);
        }
        named_release(app, &from)?;
        named_release(app, &to)?;
        if !from.is_below(&to) {
            return Err(Fault::DiffBackward);
        }
        let diffs = app.diffs.as_slice();
        if has_diff(diffs, &from, &to) {
            return Err(Fault::DiffExists);
        }
        if draft.packages.find(self.name.as_str()).is_some() {
            return Err(Fault::NameTaken);
        }
        if diffs.len() >= MAX_DIFFS {
            return Err(Fault::Limit);
        }
        Ok(())
    }
}
