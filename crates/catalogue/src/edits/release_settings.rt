//! What is set of a release that is there: its stone and withdrawn flags, its audience, its floor.

ghost use Rattle.std.specs.Prelude.{◌≡◌, IfOk};
ghost use Rattle.std.specs.List.{list_all};
ghost use Rattle.std.specs.Option.{option_copied};
ghost use Rattle.std.specs.Result.{result_err};
ghost use Rattle.catalogue.specs.Versions.{lenient_version_of};
ghost use Rattle.catalogue.specs.Changes.{with_release_setting};
ghost use Rattle.catalogue.specs.Edits.ReleaseSettings.{tests_of_set_audience, tests_of_set_floor, tests_of_set_stone, tests_of_set_withdrawn};
ghost use Rattle.catalogue.specs.Faults.{first_fault};
ghost use Rattle.catalogue.specs.Lookups.{has_cohort};
ghost use Rattle.catalogue.specs.Validity.{IsValid, is_valid_audience};
ghost use Rattle.catalogue.specs.declared.edits.release_settings.ReleaseSetting.TheVariants as setting;

use crate::content::{Cohort, Release};
use crate::draft::{Draft, named_release, spelled_version};
use crate::fault::Fault;
use crate::lookup::has_cohort;
use crate::version::Version;
use std::alloc::AllocError;
use values::{Items, Text};

/// Sets whether a release is a stepping stone, which no package may jump over.
#[derive(Clone)]
pub struct SetStone {
    /// The app's identifier, in any case.
    pub app: Text,
    /// The release's version.
    pub version: Text,
    /// Whether it is a stone from then on.
    pub on: bool,
}

// Written out, so that no caller proves again how each part is dropped.
impl Drop for SetStone {
    fn drop(self) {
        let SetStone {
            app: _,
            version: _,
            on: _,
        } = self;
    }
}

/// Sets whether a release is withdrawn, so that it is offered to nobody.
#[derive(Clone)]
pub struct SetWithdrawn {
    /// The app's identifier, in any case.
    pub app: Text,
    /// The release's version.
    pub version: Text,
    /// Whether it is withdrawn from then on.
    pub on: bool,
}

// Written out, so that no caller proves again how each part is dropped.
impl Drop for SetWithdrawn {
    fn drop(self) {
        let SetWithdrawn {
            app: _,
            version: _,
            on: _,
        } = self;
    }
}

/// Sets the cohorts that a release is open to.
#[derive(Clone)]
pub struct SetAudience {
    /// The app's identifier, in any case.
    pub app: Text,
    /// The release's version.
    pub version: Text,
    /// The names of the cohorts that it is open to from then on, read by membership; the empty list
    /// opens it to nobody, `None` to all cohorts, later ones too.
    pub cohorts: Option<Items<Text>>,
}

// Written out, so that no caller proves again how each part is dropped.
impl Drop for SetAudience {
    fn drop(self) {
        let SetAudience {
            app: _,
            version: _,
            cohorts: _,
        } = self;
    }
}

/// Sets the floor of a release: the lowest version that may take it.
#[derive(Clone)]
pub struct SetFloor {
    /// The app's identifier, in any case.
    pub app: Text,
    /// The release's version.
    pub version: Text,
    /// The lowest version that may take it from then on; `0` if any may. No release needs to have this
    /// version, and it may be above the release's own.
    pub floor: Text,
}

// Written out, so that no caller proves again how each part is dropped.
impl Drop for SetFloor {
    fn drop(self) {
        let SetFloor {
            app: _,
            version: _,
            floor: _,
        } = self;
    }
}

/// What one edit sets of a release.
#[derive(Drop)]
pub enum ReleaseSetting {
    Stone(bool),
    Withdrawn(bool),
    Audience(Option<Items<Text>>),
    Floor(Version),
}

impl ReleaseSetting {
    /// Sets it of a release.
    pub(crate) fn set(self, release: &mut Release)
        ensures { release.new ≡ with_release_setting self release.old }
    {
        match self {
            ReleaseSetting::Stone(on) => release.stone = on,
            ReleaseSetting::Withdrawn(on) => release.withdrawn = on,
            ReleaseSetting::Audience(names) => release.audience = names,
            ReleaseSetting::Floor(floor) => release.floor = floor,
        }
    }
}

impl SetStone {
    /// Returns the edit's first fault against the draft, if it has one.
    pub(crate) fn check(&self, draft: &Draft) -> Result<(), Fault>
        requires { IsValid draft.now.apps }
        ensures { result_err result ≡ first_fault (tests_of_set_stone draft.now.apps self.now) }
    {
        let app = draft.named_app(&self.app)?;
        let version = spelled_version(&self.version)?;
        named_release(app, &version)
    }
}

impl SetWithdrawn {
    /// Returns the edit's first fault against the draft, if it has one.
    pub(crate) fn check(&self, draft: &Draft) -> Result<(), Fault>
        requires { IsValid draft.now.apps }
        ensures { result_err result ≡ first_fault (tests_of_set_withdrawn draft.now.apps self.now) }
    {
        let app = draft.named_app(&self.app)?;
        let version = spelled_version(&self.version)?;
        named_release(app, &version)
    }
}

fn are_cohorts(cohorts: &[Cohort], names: &[Text]) -> bool
    ensures { result ≡ list_all (has_cohort cohorts.now) names.now }
{
    names.iter().all(|name| has_cohort(cohorts, name.as_str()))
}

fn is_audience(cohorts: &[Cohort], names: Option<&Items<Text>>) -> bool
    ensures { result ≡ is_valid_audience cohorts.now (option_copied names.entry) }
{
    match names {
        None => true,
        Some(names) => are_cohorts(cohorts, names.as_slice()),
    }
}

impl SetAudience {
    /// What the edit sets, in new memory.
    pub(crate) fn setting(&self) -> Result<ReleaseSetting, AllocError>
        ensures { IfOk result (λ new. new ≡ setting.Audience self.now.cohorts) }
    {
        let cohorts = self.cohorts.clone()?;
        Ok(ReleaseSetting::Audience(cohorts))
    }

    /// Returns the edit's first fault against the draft, if it has one.
    pub(crate) fn check(&self, draft: &Draft) -> Result<(), Fault>
        requires { IsValid draft.now.apps }
        ensures { result_err result ≡ first_fault (tests_of_set_audience draft.now.apps self.now) }
    {
        let app = draft.named_app(&self.app)?;
        let version = spelled_version(&self.version)?;
        named_release(app, &version)?;
        if !is_audience(app.cohorts.as_slice(), self.cohorts.as_ref()) {
            return Err(Fault::UnknownCohort);
        }
        Ok(())
    }
}

impl SetFloor {
    /// What the edit sets.
    pub(crate) fn setting(&self) -> ReleaseSetting
        ensures { result ≡ setting.Floor (lenient_version_of self.now.floor) }
    {
        ReleaseSetting::Floor(Version::lenient(self.floor.as_str()))
    }

    // rule: Floor of a release
    /// Returns the edit's first fault against the draft, if it has one.
    pub(crate) fn check(&self, draft: &Draft) -> Result<(), Fault>
        requires { IsValid draft.now.apps }
        ensures { result_err result ≡ first_fault (tests_of_set_floor draft.now.apps self.now) }
    {
        let app = draft.named_app(&self.app)?;
        let version = spelled_version(&self.version)?;
        spelled_version(&self.floor)?;
        named_release(app, &version)
    }
}
