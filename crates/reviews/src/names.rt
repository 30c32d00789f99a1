//! What reasons, releases and cohorts are printed as.

ghost use Rattle.std.specs.Prelude.{◌≡◌, Some};
ghost use Rattle.reviews.specs.Names.{cohort_name, reason_string, spelled_at};

use crate::cause::{Cause, Reason};
use catalogue::App;
use std::fmt;

// rule: Printed reason
impl fmt::Display for Reason {
    ghost output = { λ reason. Some (reason_string reason) };

    fn fmt<W: fmt::Write>(&self, f: &mut fmt::Formatter<W>) -> fmt::Result {
        match self {
            Reason::Alone(Cause::Withdrawn) => write!(f, "the target is withdrawn"),
            Reason::Alone(Cause::Audience) => write!(f, "the target is closed to the cohort"),
            Reason::Alone(Cause::Stone) => write!(f, "a stone can't be reached"),
            Reason::Alone(Cause::Floor) => write!(f, "below a floor"),
            Reason::Alone(Cause::Downgrade) => write!(f, "above the target without a downgrade"),
            Reason::Several => write!(f, "several rules"),
        }
    }
}

/// The version of a release as it was added; empty if there is no such release.
pub fn spelled_at(app: &App, release: usize) -> &str
    ensures { result.now ≡ spelled_at app.now release }
{
    match app.releases.as_slice().get(release) {
        Some(there) => there.spelled.as_str(),
        None => "",
    }
}

/// The name of a cohort; empty if there is no such cohort.
pub fn cohort_name(app: &App, index: usize) -> &str
    ensures { result.now ≡ cohort_name app.now index }
{
    match app.cohorts.as_slice().get(index) {
        Some(there) => there.name.as_str(),
        None => "",
    }
}
