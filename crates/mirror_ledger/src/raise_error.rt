//! Why a budget isn't raised.

ghost use Rattle.std.specs.Prelude.{Some};
ghost use Rattle.mirror_ledger.specs.FaultStrings.{fault_string};

use std::fmt;

/// Why a budget isn't raised.
#[derive(Clone, Copy, Debug)]
pub enum RaiseError {
    /// No mirror has the name.
    UnknownMirror,
    /// The budget is above 2^60 bytes.
    TooHigh,
    /// The mirror's budget is above the one that was asked for: it is this, in bytes.
    Lower(u64),
}

// rule: Printed fault of a raise
impl fmt::Display for RaiseError {
    ghost output = { λ fault. Some (fault_string fault) };

    fn fmt<W: fmt::Write>(&self, f: &mut fmt::Formatter<W>) -> fmt::Result {
        match self {
            RaiseError::UnknownMirror => write!(f, "B1 UnknownMirror"),
            RaiseError::TooHigh => write!(f, "B2 TooHigh"),
            RaiseError::Lower(now) => write!(f, "B3 Lower {now}"),
        }
    }
}
