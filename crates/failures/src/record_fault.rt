// Why a record of a history has no place in it.

ghost use Rattle.std.specs.Prelude.{Some};
ghost use Rattle.failures.specs.RecordFaults.{fault_string};

use catalogue::Refused;
use profile_toml::ProfileFault;
use std::error::Error;
use std::fmt;

/// Why a record begins nothing, or doesn't follow those before it.
#[derive(Debug)]
pub enum RecordFault {
    /// The first record is no profile.
    NoProfile,
    /// A later record is a profile.
    SecondProfile,
    /// It is an invalid profile.
    Profile(ProfileFault),
    /// It is an invalid script.
    Script(ProfileFault),
    /// An edit of it is rejected.
    Refused(Refused),
    /// There are 4096 batches before it, as many as a history may have.
    HistoryFull,
    /// It is no raise of a budget that may be made.
    Raise,
    /// A server that follows read it and didn't adopt it.
    Unadopted,
}

// Written out, so that no caller proves again how each part is dropped.
impl Drop for RecordFault {
    fn drop(self) {
        match self {
            RecordFault::NoProfile => {}
            RecordFault::SecondProfile => {}
            RecordFault::Profile(_) => {}
            RecordFault::Script(_) => {}
            RecordFault::Refused(_) => {}
            RecordFault::HistoryFull => {}
            RecordFault::Raise => {}
            RecordFault::Unadopted => {}
        }
    }
}

impl fmt::Display for RecordFault {
    ghost output = { λ fault. Some (fault_string fault) };

    fn fmt<W: fmt::Write>(&self, f: &mut fmt::Formatter<W>) -> fmt::Result {
        match self {
            RecordFault::NoProfile => f.write_str("no profile"),
            RecordFault::SecondProfile => f.write_str("a second profile"),
            RecordFault::Profile(fault) => write!(f, "profile {fault}"),
            RecordFault::Script(fault) => write!(f, "script {fault}"),
            RecordFault::Refused(refused) => write!(f, "{refused}"),
            RecordFault::HistoryFull => f.write_str("history full"),
            RecordFault::Raise => f.write_str("bad raise"),
            RecordFault::Unadopted => f.write_str("not adopted, omaha history says why"),
        }
    }
}

impl Error for RecordFault {}
