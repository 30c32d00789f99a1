ghost use Rattle.std.specs.Prelude.{◌≡◌};
ghost use Rattle.update_client.specs.Faults.{fault_string};

use std::error::Error;
use std::fmt;
use values::ReadError;

/// Why a client did not install what it was offered.
#[derive(Clone, Copy, Debug, Drop, PartialEq, Eq)]
pub enum Fault {
    /// The link failed.
    Link,
    /// The reply is invalid, or is not for this app alone, or says neither an offer nor no update.
    Reply,
    /// The download has not as many bytes as were offered.
    BadLength,
    /// The download has as many bytes as were offered, and another SHA-256.
    BadHash,
    /// The installer failed.
    Install,
    /// The offered fingerprint is the installed one.
    NoProgress,
    /// There was an offer after 1024 steps.
    TooManySteps,
    /// The server could not offer what there is, `error-internal`.
    Busy,
}

impl Fault {
    // The code and the name.
    fn code(&self) -> &'static str
        ensures { result.now ≡ fault_string self.now }
    {
        match self {
            Fault::Link => "U1 Link",
            Fault::Reply => "U2 Reply",
            Fault::BadLength => "U3 BadLength",
            Fault::BadHash => "U4 BadHash",
            Fault::Install => "U5 Install",
            Fault::NoProgress => "U6 NoProgress",
            Fault::TooManySteps => "U7 TooManySteps",
            Fault::Busy => "U8 Busy",
        }
    }
}

// rule: Printed fault of a client
/// Writes the fault's code and name.
impl fmt::Display for Fault {
    ghost use Rattle.std.specs.Prelude.{Some};
    ghost use Rattle.update_client.specs.Faults.{fault_string};

    ghost output = { λ fault. Some (fault_string fault) };

    fn fmt<W: fmt::Write>(&self, f: &mut fmt::Formatter<W>) -> fmt::Result {
        f.write_str(self.code())
    }
}

impl Error for Fault {}

impl From<Fault> for ReadError<Fault> {
    ghost use Rattle.std.specs.Prelude.{◌≡◌};
    ghost use Rattle.values.specs.declared.read_error.ReadError.TheVariants as errors;

    ghost from_gives = { λ fault error. error ≡ errors.Fault fault };

    fn from(fault: Fault) -> ReadError<Fault> {
        ReadError::Fault(fault)
    }
}
