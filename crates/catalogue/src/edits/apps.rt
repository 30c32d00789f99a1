ghost use Rattle.std.specs.Prelude.{◌≡◌};
ghost use Rattle.std.specs.Result.{result_err};
ghost use Rattle.catalogue.specs.Edits.Apps.{tests_of_add_app};
ghost use Rattle.catalogue.specs.Faults.{first_fault};
ghost use Rattle.catalogue.specs.Validity.{IsValid};

use crate::draft::Draft;
use crate::fault::Fault;
use crate::form::{is_app_id, is_cohort_name};
use crate::lookup::find_app;
use values::Text;

const MAX_APPS: usize = 64;

/// Adds an app with its default cohort.
#[derive(Clone)]
pub struct AddApp {
    /// The app's identifier: 1 to 256 bytes from 0x21 to 0x7e.
    pub app: Text,
    /// The name of its default cohort: 1 to 32 bytes of `a-z`, `0-9`, `-`.
    pub default: Text,
}

// Written out, so that no caller proves again how each part is dropped.
impl Drop for AddApp {
    fn drop(self) {
        let AddApp { app: _, default: _ } = self;
    }
}

impl AddApp {
    /// Returns the edit's first fault against the draft, if it has one.
    pub(crate) fn check(&self, draft: &Draft) -> Result<(), Fault>
        requires { IsValid draft.now.apps }
        ensures { result_err result ≡ first_fault (tests_of_add_app draft.now.apps self.now) }
    {
        let apps = draft.apps.as_slice();
        if !is_app_id(self.app.as_str()) {
            return Err(Fault::BadAppId);
        }
        if !is_cohort_name(self.default.as_str()) {
            return Err(Fault::BadName);
        }
        if find_app(apps, self.app.as_str()).is_some() {
            return Err(Fault::AppExists);
        }
        if apps.len() >= MAX_APPS {
            return Err(Fault::Limit);
        }
        Ok(())
    }
}
