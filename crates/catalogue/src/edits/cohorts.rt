ghost use Rattle.std.specs.Prelude.{◌≡◌};
ghost use Rattle.std.specs.Result.{result_err};
ghost use Rattle.catalogue.specs.Edits.Cohorts.{tests_of_add_cohort};
ghost use Rattle.catalogue.specs.Faults.{first_fault};
ghost use Rattle.catalogue.specs.Validity.{IsValid};

use crate::draft::Draft;
use crate::fault::Fault;
use crate::form::is_cohort_name;
use crate::lookup::has_cohort;
use values::Text;

const MAX_COHORTS: usize = 32;

/// Adds a cohort to an app, after its others, at the first values of a cohort.
#[derive(Clone)]
pub struct AddCohort {
    /// The app's identifier, in any case.
    pub app: Text,
    /// The cohort's name: 1 to 32 bytes of `a-z`, `0-9`, `-`.
    pub cohort: Text,
}

// Written out, so that no caller proves again how each part is dropped.
impl Drop for AddCohort {
    fn drop(self) {
        let AddCohort { app: _, cohort: _ } = self;
    }
}

impl AddCohort {
    /// Returns the edit's first fault against the draft, if it has one.
    pub(crate) fn check(&self, draft: &Draft) -> Result<(), Fault>
        requires { IsValid draft.now.apps }
        ensures { result_err result ≡ first_fault (tests_of_add_cohort draft.now.apps self.now) }
    {
        let cohorts = draft.named_app(&self.app)?.cohorts.as_slice();
        if !is_cohort_name(self.cohort.as_str()) {
            return Err(Fault::BadName);
        }
        if has_cohort(cohorts, self.cohort.as_str()) {
            return Err(Fault::CohortExists);
        }
        if cohorts.len() >= MAX_COHORTS {
            return Err(Fault::Limit);
        }
        Ok(())
    }
}
