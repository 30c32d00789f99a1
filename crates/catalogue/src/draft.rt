//! A content that a batch is being applied to, with the index of its packages.

ghost use Rattle.std.specs.Prelude.{◌≡◌, None, Ok, Some, true, false, OnOk, OnErr, IfOk, IfErr};
ghost use Rattle.std.specs.Option.{is_none};
ghost use Rattle.catalogue.specs.Versions.{lenient_version_of, version_of};
ghost use Rattle.catalogue.specs.Batches.{outcome};
ghost use Rattle.catalogue.specs.Changes.{NewApp, NewCohort, NewDiff, NewRelease, SetsCohort, SetsRelease, changed};
ghost use Rattle.catalogue.specs.Draft.{Becomes, Indexes, IsIndexed};
ghost use Rattle.catalogue.specs.Edits.{after, fault_of};
ghost use Rattle.catalogue.specs.Edits.Diffs.{tests_of_add_diff};
ghost use Rattle.catalogue.specs.Edits.Releases.{tests_of_add_release};
ghost use Rattle.catalogue.specs.Faults.{first_fault};
ghost use Rattle.catalogue.specs.Lookups.{app_of, has_cohort, has_release};
ghost use Rattle.values.specs.Ordered.{ascend};
ghost use Rattle.values.specs.Reading.{Explains};
ghost use Rattle.catalogue.specs.Validity.{IsValid, is_diff_before, is_release_below};
ghost use Rattle.catalogue.specs.declared.fault.Fault.TheVariants.{BadVersion, UnknownApp, UnknownCohort, UnknownRelease};

use crate::change::{
    add_cohort_to, added_cohort, new_app, new_diff, new_release, place_diff_in, place_in,
    set_cohort_in_apps, set_release_in_apps,
};
use crate::content::App;
use crate::edit::Edit;
use crate::edits::apps::AddApp;
use crate::edits::cohort_settings::CohortSetting;
use crate::edits::cohorts::AddCohort;
use crate::edits::diffs::AddDiff;
use crate::edits::release_settings::ReleaseSetting;
use crate::edits::releases::AddRelease;
use crate::fault::{Fault, Refused};
use crate::package_index::PackageIndex;
use crate::version::Version;
use crate::{Declared, lookup};
use std::alloc::{AllocError, Global};
use values::{Items, ReadError, Shared, Text};

/// Tests that an app has a cohort of the name, else returns `UnknownCohort`.
pub(crate) fn named_cohort(app: &App, name: &Text) -> Result<(), Fault>
    ensures ok { OnOk result (has_cohort app.now.cohorts name.now ≡ true) }
    ensures refused { IfErr result (λ fault. fault ≡ UnknownCohort) }
    ensures err { OnErr result (has_cohort app.now.cohorts name.now ≡ false) }
{
    if lookup::has_cohort(app.cohorts.as_slice(), name.as_str()) {
        Ok(())
    } else {
        Err(Fault::UnknownCohort)
    }
}

/// A content and its index; after a failed allocation the two may differ.
#[derive(Drop)]
pub(crate) struct Draft {
    pub(crate) alloc: Global,
    pub(crate) apps: Items<App>,
    pub(crate) packages: PackageIndex,
}

fn copy_of(apps: &Items<App>) -> Result<Items<App>, AllocError>
    ensures { IfOk result (λ copy. copy ≡ apps.now) }
{
    apps.clone()
}

/// Reads the version that a string spells, else returns `BadVersion`.
pub(crate) fn spelled_version(text: &Text) -> Result<Version, Fault>
    ensures ok { IfOk result (λ version. version ≡ lenient_version_of text.now) }
    ensures spelled { OnOk result (is_none (version_of text.now) ≡ false) }
    ensures refused { IfErr result (λ fault. fault ≡ BadVersion) }
    ensures err { OnErr result (is_none (version_of text.now) ≡ true) }
{
    if Version::parse(text.as_str()).is_none() {
        return Err(Fault::BadVersion);
    }
    Ok(Version::lenient(text.as_str()))
}

/// Tests that an app has a release of the version, else returns `UnknownRelease`.
pub(crate) fn named_release(app: &App, version: &Version) -> Result<(), Fault>
    requires { ascend is_release_below app.now.releases ≡ true }
    ensures ok { OnOk result (has_release app.now.releases version.now ≡ true) }
    ensures refused { IfErr result (λ fault. fault ≡ UnknownRelease) }
    ensures err { OnErr result (has_release app.now.releases version.now ≡ false) }
{
    if lookup::has_release(app.releases.as_slice(), version) {
        Ok(())
    } else {
        Err(Fault::UnknownRelease)
    }
}

impl Draft {
    /// Makes a draft of a content and its index, in new memory.
    pub(crate) fn of(
        alloc: Global,
        apps: &Items<App>,
        packages: &PackageIndex,
    ) -> Result<Draft, AllocError>
        requires { Indexes packages.now apps.now }
        ensures { IfOk result (λ draft. Becomes draft apps.now) }
    {
        let apps = copy_of(apps)?;
        let packages = packages.copy()?;
        Ok(Draft {
            alloc,
            apps,
            packages,
        })
    }

    /// Finds the app of an identifier, else returns `UnknownApp`.
    pub(crate) fn named_app(&self, id: &Text) -> Result<&App, Fault>
        requires { IsValid self.now.apps }
        ensures ok { IfOk result (λ app. app_of self.now.apps id.now ≡ Some app.now) }
        ensures ascending { IfOk result (λ app. ascend is_release_below app.now.releases ≡ true) }
        ensures diffs_ascending { IfOk result (λ app. ascend is_diff_before app.now.diffs ≡ true) }
        ensures refused { IfErr result (λ fault. fault ≡ UnknownApp) }
        ensures err { OnErr result (app_of self.now.apps id.now ≡ None) }
    {
        match lookup::find_app(self.apps.as_slice(), id.as_str()) {
            Some(app) => Ok(app),
            None => Err(Fault::UnknownApp),
        }
    }

    fn add_app(&mut self, edit: &AddApp) -> Result<(), AllocError>
        requires { IsIndexed self.old }
        ensures { OnOk result (Becomes self.new (changed (NewApp edit.now) self.old.apps)) }
    {
        let app = new_app(self.alloc, edit)?;
        self.apps.push(app)
    }

    fn add_release(&mut self, edit: &AddRelease) -> Result<(), AllocError>
        requires indexed { IsIndexed self.old }
        requires valid { IsValid self.old.apps }
        requires accepted { first_fault (tests_of_add_release self.old.apps edit.now) ≡ None }
        ensures { OnOk result (Becomes self.new (changed (NewRelease edit.now) self.old.apps)) }
    {
        let release = new_release(edit)?;
        let name = String::from_str(self.alloc, edit.name.as_str())?;
        let hash = release.hash;
        let declared = Declared {
            size: release.size,
            hash,
        };
        self.packages.insert(name, declared)?;
        place_in(&mut self.apps, &edit.app, release)?;
        Ok(())
    }

    fn add_diff(&mut self, edit: &AddDiff) -> Result<(), AllocError>
        requires indexed { IsIndexed self.old }
        requires valid { IsValid self.old.apps }
        requires accepted { first_fault (tests_of_add_diff self.old.apps edit.now) ≡ None }
        ensures { OnOk result (Becomes self.new (changed (NewDiff edit.now) self.old.apps)) }
    {
        let diff = new_diff(edit)?;
        let package = String::from_str(self.alloc, edit.name.as_str())?;
        let hash = diff.hash;
        let declared = Declared {
            size: diff.size,
            hash,
        };
        self.packages.insert(package, declared)?;
        let shared = Shared::new(self.alloc, diff)?;
        place_diff_in(&mut self.apps, &edit.app, shared)?;
        Ok(())
    }

    fn add_cohort(&mut self, edit: &AddCohort) -> Result<(), AllocError>
        requires indexed { IsIndexed self.old }
        requires valid { IsValid self.old.apps }
        ensures { OnOk result (Becomes self.new (changed (NewCohort edit.now) self.old.apps)) }
    {
        let cohort = added_cohort(edit)?;
        add_cohort_to(&mut self.apps, &edit.app, cohort)?;
        Ok(())
    }

    fn set_release(
        &mut self,
        id: &Text,
        version: &Text,
        setting: ReleaseSetting,
    ) -> Result<(), AllocError>
        requires indexed { IsIndexed self.old }
        requires valid { IsValid self.old.apps }
        ensures { OnOk result (Becomes
            self.new
            (changed (SetsRelease id.now (lenient_version_of version.now) setting) self.old.apps)) }
    {
        let version = Version::lenient(version.as_str());
        set_release_in_apps(&mut self.apps, id, &version, setting)?;
        Ok(())
    }

    fn set_cohort(&mut self, id: &Text, cohort: &Text, setting: CohortSetting)
        requires indexed { IsIndexed self.old }
        requires valid { IsValid self.old.apps }
        ensures { Becomes
            self.new
            (changed (SetsCohort id.now cohort.now setting) self.old.apps) }
    {
        set_cohort_in_apps(&mut self.apps, id, cohort, setting);
    }

    // rule: What an edit changes
    fn perform(&mut self, edit: &Edit) -> Result<(), AllocError>
        requires indexed { IsIndexed self.old }
        requires valid { IsValid self.old.apps }
        requires accepted { fault_of self.old.apps edit.now ≡ None }
        ensures { OnOk result (Becomes self.new (after self.old.apps edit.now)) }
    {
        match edit {
            Edit::AddApp(edit) => self.add_app(edit)?,
            Edit::AddRelease(edit) => self.add_release(edit)?,
            Edit::AddDiff(edit) => self.add_diff(edit)?,
            Edit::SetStone(edit) => {
                self.set_release(&edit.app, &edit.version, ReleaseSetting::Stone(edit.on))?
            }
            Edit::SetWithdrawn(edit) => {
                self.set_release(&edit.app, &edit.version, ReleaseSetting::Withdrawn(edit.on))?
            }
            Edit::SetAudience(edit) => {
                self.set_release(&edit.app, &edit.version, edit.setting()?)?
            }
            Edit::SetFloor(edit) => self.set_release(&edit.app, &edit.version, edit.setting())?,
            Edit::AddCohort(edit) => self.add_cohort(edit)?,
            Edit::SetTarget(edit) => self.set_cohort(&edit.app, &edit.cohort, edit.setting()),
            Edit::SetShare(edit) => {
                self.set_cohort(&edit.app, &edit.cohort, CohortSetting::Share(edit.share))
            }
            Edit::SetRollback(edit) => {
                self.set_cohort(&edit.app, &edit.cohort, CohortSetting::Rollback(edit.on))
            }
            Edit::SetOpen(edit) => {
                self.set_cohort(&edit.app, &edit.cohort, CohortSetting::Open(edit.on))
            }
        }
        Ok(())
    }

    /// Performs edits in order, up to the first that is rejected.
    ///
    /// After an error the draft is of no use.
    pub(crate) fn run(&mut self, edits: &[Edit]) -> Result<(), ReadError<Refused>>
        requires indexed { IsIndexed self.old }
        requires valid { IsValid self.old.apps }
        ensures ok { OnOk result (outcome edits.now self.old.apps ≡ Ok self.new.apps) }
        ensures indexed { OnOk result (IsIndexed self.new) }
        ensures valid { OnOk result (IsValid self.new.apps) }
        ensures refused { IfErr result (λ e. Explains e (outcome edits.now self.old.apps)) }
    {
        crate::version_laws::order();
        crate::version_laws::spellings();
        crate::version_laws::printing();
        for (index, edit) in edits.iter().enumerate() {
            if let Err(fault) = edit.check(self) {
                return Err(ReadError::Fault(Refused { index, fault }));
            }
            self.perform(edit)?;
        }
        Ok(())
    }
}
