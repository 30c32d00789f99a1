ghost use Rattle.std.specs.Prelude.{Some};
ghost use Rattle.catalogue.specs.FaultStrings.{fault_string, refused_string};

use std::error::Error;
use std::fmt;

/// Why an edit was rejected; it prints as its code and its name, as `C11 UnknownRelease`.
#[derive(Clone, Copy, Debug, PartialEq, Eq)]
pub enum Fault {
    /// C1: no app has the identifier.
    UnknownApp,
    /// C2: an app has the identifier.
    AppExists,
    /// C3: the string is no identifier of an app.
    BadAppId,
    /// C4: the string is no version of 1 to 4 components.
    BadVersion,
    /// C5: the app has a release of the version.
    ReleaseExists,
    /// C6: a release of the app has the hash.
    HashTaken,
    /// C7: the string is not 64 lower-case hexadecimal digits.
    BadHash,
    /// C8: the size is not 1 to 2^40.
    BadSize,
    /// C9: the string is no name of a package, or no name of a cohort.
    BadName,
    /// C10: a package of the catalogue has the name.
    NameTaken,
    /// C11: the app has no release of the version.
    UnknownRelease,
    /// C12: the app has a differential of the pair.
    DiffExists,
    /// C13: the differential doesn't lead up.
    DiffBackward,
    /// C14: the app has no cohort of the name.
    UnknownCohort,
    /// C15: the app has a cohort of the name.
    CohortExists,
    /// C16: the share is above 1000.
    BadShare,
    /// C17: there are as many items of the kind as there may be.
    Limit,
}

/// The first rejected edit of a batch: its index from 0, and its first fault.
#[derive(Clone, Copy, Debug, PartialEq, Eq)]
pub struct Refused {
    /// The edit's index in its batch, from 0.
    pub index: usize,
    /// The first of the edit's faults.
    pub fault: Fault,
}

// rule: Printed fault of an edit
impl fmt::Display for Fault {
    ghost output = { λ f. Some (fault_string f) };

    fn fmt<W: fmt::Write>(&self, f: &mut fmt::Formatter<W>) -> fmt::Result {
        f.write_str(match self {
            Fault::UnknownApp => "C1 UnknownApp",
            Fault::AppExists => "C2 AppExists",
            Fault::BadAppId => "C3 BadAppId",
            Fault::BadVersion => "C4 BadVersion",
            Fault::ReleaseExists => "C5 ReleaseExists",
            Fault::HashTaken => "C6 HashTaken",
            Fault::BadHash => "C7 BadHash",
            Fault::BadSize => "C8 BadSize",
            Fault::BadName => "C9 BadName",
            Fault::NameTaken => "C10 NameTaken",
            Fault::UnknownRelease => "C11 UnknownRelease",
            Fault::DiffExists => "C12 DiffExists",
            Fault::DiffBackward => "C13 DiffBackward",
            Fault::UnknownCohort => "C14 UnknownCohort",
            Fault::CohortExists => "C15 CohortExists",
            Fault::BadShare => "C16 BadShare",
            Fault::Limit => "C17 Limit",
        })
    }
}

impl fmt::Display for Refused {
    ghost output = { λ r. Some (refused_string r) };

    fn fmt<W: fmt::Write>(&self, f: &mut fmt::Formatter<W>) -> fmt::Result {
        let index = self.index;
        let fault = self.fault;
        write!(f, "edit {index}: {fault}")
    }
}

impl Error for Fault {}

impl Error for Refused {}
