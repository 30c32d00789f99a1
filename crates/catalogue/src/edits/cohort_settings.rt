//! What is set of a cohort that is there: its targets, its share, its rollback and open flags.

ghost use Rattle.std.specs.Prelude.{◌≡◌, true, option_map};
ghost use Rattle.std.specs.Option.{option_copied};
ghost use Rattle.std.specs.Result.{result_err};
ghost use Rattle.catalogue.specs.Versions.{lenient_version_of};
ghost use Rattle.catalogue.specs.Changes.{with_setting};
ghost use Rattle.catalogue.specs.Edits.CohortSettings.{is_misspelled, is_unreleased, setting_of_set_target, tests_of_set_open, tests_of_set_rollback, tests_of_set_share, tests_of_set_target};
ghost use Rattle.catalogue.specs.Faults.{first_fault};
ghost use Rattle.values.specs.Ordered.{ascend};
ghost use Rattle.catalogue.specs.Validity.{IsValid, is_release_below};

use crate::content::{Cohort, Release};
use crate::draft::{Draft, named_cohort};
use crate::fault::Fault;
use crate::lookup::has_release;
use crate::version::Version;
use values::Text;

const MAX_SHARE: u64 = 1000;

/// Sets the target and the held target of a cohort; both are replaced.
#[derive(Clone)]
pub struct SetTarget {
    /// The app's identifier, in any case.
    pub app: Text,
    /// The cohort's name.
    pub cohort: Text,
    /// The version of the cohort's target from then on, or none.
    pub target: Option<Text>,
    /// The version of the cohort's held target from then on, or none.
    pub held: Option<Text>,
}

// Written out, so that no caller proves again how each part is dropped.
impl Drop for SetTarget {
    fn drop(self) {
        let SetTarget {
            app: _,
            cohort: _,
            target: _,
            held: _,
        } = self;
    }
}

/// Sets how many of 1000 clients of a cohort have its target.
#[derive(Clone)]
pub struct SetShare {
    /// The app's identifier, in any case.
    pub app: Text,
    /// The cohort's name.
    pub cohort: Text,
    /// The cohort's share from then on, 0 to 1000.
    pub share: u64,
}

// Written out, so that no caller proves again how each part is dropped.
impl Drop for SetShare {
    fn drop(self) {
        let SetShare {
            app: _,
            cohort: _,
            share: _,
        } = self;
    }
}

/// Sets whether a cohort's clients may be downgraded to its target.
#[derive(Clone)]
pub struct SetRollback {
    /// The app's identifier, in any case.
    pub app: Text,
    /// The cohort's name.
    pub cohort: Text,
    /// Whether its clients may be downgraded from then on, if they allow it themselves.
    pub on: bool,
}

// Written out, so that no caller proves again how each part is dropped.
impl Drop for SetRollback {
    fn drop(self) {
        let SetRollback {
            app: _,
            cohort: _,
            on: _,
        } = self;
    }
}

/// Sets whether a client's hint may name a cohort.
#[derive(Clone)]
pub struct SetOpen {
    /// The app's identifier, in any case.
    pub app: Text,
    /// The cohort's name.
    pub cohort: Text,
    /// Whether a hint may name it from then on.
    pub on: bool,
}

// Written out, so that no caller proves again how each part is dropped.
impl Drop for SetOpen {
    fn drop(self) {
        let SetOpen {
            app: _,
            cohort: _,
            on: _,
        } = self;
    }
}

/// What one edit sets of a cohort.
#[derive(Clone, Copy)]
pub enum CohortSetting {
    Targets {
        target: Option<Version>,
        held: Option<Version>,
    },
    Share(u64),
    Rollback(bool),
    Open(bool),
}

impl CohortSetting {
    /// Sets it of a cohort.
    pub(crate) fn set(self, cohort: &mut Cohort)
        ensures { cohort.new ≡ with_setting self cohort.old }
    {
        match self {
            CohortSetting::Targets { target, held } => {
                cohort.target = target;
                cohort.held = held;
            }
            CohortSetting::Share(share) => cohort.share = share,
            CohortSetting::Rollback(on) => cohort.rollback = on,
            CohortSetting::Open(on) => cohort.hintable = on,
        }
    }
}

fn is_misspelled(text: Option<&Text>) -> bool
    ensures { result ≡ is_misspelled (option_copied text.entry) }
{
    text.is_some_and(|text| Version::parse(text.as_str()).is_none())
}

fn is_unreleased(releases: &[Release], text: Option<&Text>) -> bool
    requires { ascend is_release_below releases.now ≡ true }
    ensures { result ≡ is_unreleased releases.now (option_copied text.entry) }
{
    match text {
        None => false,
        Some(text) => !has_release(releases, &Version::lenient(text.as_str())),
    }
}

fn lenient(text: Option<&Text>) -> Option<Version>
    ensures { result ≡ option_map lenient_version_of (option_copied text.entry) }
{
    text.map(|text| Version::lenient(text.as_str()))
}

impl SetTarget {
    /// What the edit sets.
    pub(crate) fn setting(&self) -> CohortSetting
        ensures { result ≡ setting_of_set_target self.now }
    {
        CohortSetting::Targets {
            target: lenient(self.target.as_ref()),
            held: lenient(self.held.as_ref()),
        }
    }

    /// Returns the edit's first fault against the draft, if it has one.
    pub(crate) fn check(&self, draft: &Draft) -> Result<(), Fault>
        requires { IsValid draft.now.apps }
        ensures { result_err result ≡ first_fault (tests_of_set_target draft.now.apps self.now) }
    {
        let app = draft.named_app(&self.app)?;
        named_cohort(app, &self.cohort)?;
        let target = self.target.as_ref();
        let held = self.held.as_ref();
        if is_misspelled(target) || is_misspelled(held) {
            return Err(Fault::BadVersion);
        }
        let releases = app.releases.as_slice();
        if is_unreleased(releases, target) || is_unreleased(releases, held) {
            return Err(Fault::UnknownRelease);
        }
        Ok(())
    }
}

impl SetShare {
    /// Returns the edit's first fault against the draft, if it has one.
    pub(crate) fn check(&self, draft: &Draft) -> Result<(), Fault>
        requires { IsValid draft.now.apps }
        ensures { result_err result ≡ first_fault (tests_of_set_share draft.now.apps self.now) }
    {
        named_cohort(draft.named_app(&self.app)?, &self.cohort)?;
        if self.share > MAX_SHARE {
            return Err(Fault::BadShare);
        }
        Ok(())
    }
}

impl SetRollback {
    /// Returns the edit's first fault against the draft, if it has one.
    pub(crate) fn check(&self, draft: &Draft) -> Result<(), Fault>
        requires { IsValid draft.now.apps }
        ensures { result_err result ≡ first_fault (tests_of_set_rollback draft.now.apps self.now) }
    {
        named_cohort(draft.named_app(&self.app)?, &self.cohort)
    }
}

impl SetOpen {
    /// Returns the edit's first fault against the draft, if it has one.
    pub(crate) fn check(&self, draft: &Draft) -> Result<(), Fault>
        requires { IsValid draft.now.apps }
        ensures { result_err result ≡ first_fault (tests_of_set_open draft.now.apps self.now) }
    {
        named_cohort(draft.named_app(&self.app)?, &self.cohort)
    }
}
