use std::error::Error;
use std::fmt;
use values::Text;

/// Why a document is no profile, or no script.
///
/// An earlier variant is reported before a later one.
#[derive(Debug)]
pub enum ProfileFault {
    /// F1: the bytes are not UTF-8, or not TOML.
    NotToml,
    /// F2: the document has no key `schema` with the integer 1 or 2.
    BadSchema,
    /// F3: the path of the first unknown key, missing key, value of a wrong type or negative
    /// integer, or of the name of a cohort that repeats an earlier one, as
    /// `app[0].release[2].size`.
    BadEntry(Text),
    /// F4: the index of a mirror, from 0: 0 if there is none, 4 if there is a fifth, else that of
    /// the first one that is invalid or has the name of an earlier one.
    BadMirror(usize),
    /// F5: a script has more than 4096 edits.
    TooManyEdits,
}

// Written out, so that no caller proves again how each part is dropped.
impl Drop for ProfileFault {
    fn drop(self) {
        match self {
            ProfileFault::NotToml => {}
            ProfileFault::BadSchema => {}
            ProfileFault::BadEntry(_) => {}
            ProfileFault::BadMirror(_) => {}
            ProfileFault::TooManyEdits => {}
        }
    }
}

/// Writes the fault's code and name, and after a space the path or the index.
impl fmt::Display for ProfileFault {
    ghost use Rattle.std.specs.Prelude.{Some};
    ghost use Rattle.profile_toml.specs.FaultStrings.{fault_string};

    ghost output = { λ fault. Some (fault_string fault) };

    fn fmt<W: fmt::Write>(&self, f: &mut fmt::Formatter<W>) -> fmt::Result {
        match self {
            ProfileFault::NotToml => f.write_str("F1 NotToml"),
            ProfileFault::BadSchema => f.write_str("F2 BadSchema"),
            ProfileFault::BadEntry(path) => {
                let path = path.as_str();
                write!(f, "F3 BadEntry {path}")
            }
            ProfileFault::BadMirror(index) => write!(f, "F4 BadMirror {index}"),
            ProfileFault::TooManyEdits => f.write_str("F5 TooManyEdits"),
        }
    }
}

impl Error for ProfileFault {}
