//! Why there is no certificate, or why bytes are no valid one.

ghost use Rattle.std.specs.Prelude.{◌≡◌, Some};
ghost use Rattle.certificates.specs.FaultStrings.{fault_string, rule_string};
ghost use Rattle.certificates.specs.Reading.{fault_at};

use price_cert::Rule;
use std::error::Error;
use std::fmt;
use values::Text;

/// Why there is no certificate, or why bytes are no valid one; lines are counted from 1.
///
/// Reading finds the first wrong line alone. The other two are for who asks for a track's certificate, and for who
/// checks the rows that were read.
#[derive(Debug)]
pub enum Fault {
    /// P1: the line is not well formed, is missing, or is after the last one.
    BadLine {
        /// The number of the line.
        n: usize,
    },
    /// P2: the line is well formed, but is not the one of this graph.
    NotOfThisGraph {
        /// The number of the line.
        n: usize,
    },
    /// There is no table of the track: no app or cohort of the name, no target, or the clients allow a
    /// downgrade but the cohort doesn't.
    NoTrack,
    /// A row breaks a rule: the version of its release, as it was added, and the rule.
    Wrong(Text, Rule),
}

// Written out, so that no caller proves again how each part is dropped.
impl Drop for Fault {
    fn drop(self) {
        match self {
            Fault::BadLine { n: _ } => {}
            Fault::NotOfThisGraph { n: _ } => {}
            Fault::NoTrack => {}
            Fault::Wrong(_, _) => {}
        }
    }
}

// The name of a rule.
fn rule_word(rule: Rule) -> &'static str
    ensures { result.now ≡ rule_string rule }
{
    match rule {
        Rule::C1 => "C1",
        Rule::C2 => "C2",
        Rule::C3 => "C3",
        Rule::C4 => "C4",
    }
}

// rule: Printed fault of a certificate
impl fmt::Display for Fault {
    ghost output = { λ f. Some (fault_string f) };

    fn fmt<W: fmt::Write>(&self, f: &mut fmt::Formatter<W>) -> fmt::Result {
        match self {
            Fault::BadLine { n } => write!(f, "P1 BadLine {n}"),
            Fault::NotOfThisGraph { n } => write!(f, "P2 NotOfThisGraph {n}"),
            Fault::NoTrack => f.write_str("no track"),
            Fault::Wrong(release, rule) => {
                let release = release.as_str();
                let rule = rule_word(*rule);
                write!(f, "wrong {release} {rule}")
            }
        }
    }
}

impl Error for Fault {}

/// What is wrong with a line.
#[derive(Clone, Copy)]
pub(crate) enum Flaw {
    /// It is not well formed.
    Form,
    /// It is well formed, but is not the one of this graph.
    Other,
}

impl Flaw {
    // rule: Fault of a certificate
    /// The fault of a line with the flaw.
    pub(crate) fn at(self, n: usize) -> Fault
        ensures { result ≡ fault_at n self }
    {
        match self {
            Flaw::Form => Fault::BadLine { n },
            Flaw::Other => Fault::NotOfThisGraph { n },
        }
    }
}
