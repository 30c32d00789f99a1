use std::error::Error;
use std::fmt;

/// Why bytes are no reply of the Omaha protocol 3.1, JSON form.
///
/// The faults are in the order in which they are looked for.
#[derive(Clone, Copy, Debug, Drop)]
pub enum ReplyFault {
    /// The bytes do not begin with the four bytes `)]}'`.
    NoPrefix,
    /// The bytes after those four are not JSON.
    NotJson,
    /// The JSON is no object, or its member `response` is missing or no object.
    NoResponse,
    /// The member `protocol` is not the string `3.1`.
    BadProtocol,
    /// The member `app` is no list (index 0), or its element `index`, counted from 0, is no reply to
    /// an app, or offers an update that lacks what a client needs.
    BadOffer {
        /// The index of the first invalid element.
        index: usize,
    },
}

// rule: Printed fault of a reply
/// Writes the fault's code and name, and after a space the index of an invalid element.
impl fmt::Display for ReplyFault {
    ghost use Rattle.std.specs.Prelude.{Some};
    ghost use Rattle.omaha_json.specs.ClientFaults.{fault_string};

    ghost output = { λ fault. Some (fault_string fault) };

    fn fmt<W: fmt::Write>(&self, f: &mut fmt::Formatter<W>) -> fmt::Result {
        match self {
            ReplyFault::NoPrefix => f.write_str("K1 NoPrefix"),
            ReplyFault::NotJson => f.write_str("K2 NotJson"),
            ReplyFault::NoResponse => f.write_str("K3 NoResponse"),
            ReplyFault::BadProtocol => f.write_str("K4 BadProtocol"),
            ReplyFault::BadOffer { index } => write!(f, "K5 BadOffer {index}"),
        }
    }
}

impl Error for ReplyFault {}
