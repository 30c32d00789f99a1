use std::error::Error;
use std::fmt;

/// Why bytes are no request of the Omaha protocol 3.1, JSON form.
///
/// The faults are in the order in which they are looked for.
#[derive(Clone, Copy, Debug, Drop)]
pub enum RequestFault {
    /// The bytes are not JSON.
    NotJson,
    /// The JSON is no object, or its member `request` is missing or no object.
    NoRequest,
    /// The member `protocol` is not the string `3.1`.
    BadProtocol,
    /// The member `app` is no list (index 0), or its element `index`, counted from 0, is no app.
    BadApp {
        /// The index of the first element that is no app.
        index: usize,
    },
    /// There are more than 256 apps.
    TooManyApps,
}

// rule: Printed fault of a request
/// Writes the fault's code and name, and after a space the index of an invalid app.
impl fmt::Display for RequestFault {
    ghost use Rattle.std.specs.Prelude.{Some};
    ghost use Rattle.omaha_json.specs.Faults.{fault_string};

    ghost output = { λ fault. Some (fault_string fault) };

    fn fmt<W: fmt::Write>(&self, f: &mut fmt::Formatter<W>) -> fmt::Result {
        match self {
            RequestFault::NotJson => f.write_str("J1 NotJson"),
            RequestFault::NoRequest => f.write_str("J2 NoRequest"),
            RequestFault::BadProtocol => f.write_str("J3 BadProtocol"),
            RequestFault::BadApp { index } => write!(f, "J4 BadApp {index}"),
            RequestFault::TooManyApps => f.write_str("J5 TooManyApps"),
        }
    }
}

impl Error for RequestFault {}
