ghost use Rattle.std.specs.Prelude.{◌≡◌, ◌↔◌, ◌≤◌, IsTrue, Some, bytes_eq, length};
ghost use Rattle.catalogue.specs.Versions.{begins_as, client_version_of, is_below, lenient_version_of, printed, version_of, zero_version, zeros_at_end};

use crate::spelling::{COMPONENTS, Form, read};
use std::fmt;
use std::marker::Model;

/// A version: sixteen numbers, which contracts see as their list.
///
/// Each is at most 4294967295. Versions compare number by number, so `1.9` is below `1.10`, and
/// `1.0` equals `1.0.0.0`. One prints as its components joined by dots: at least two, and those up
/// to the last that is not 0.
#[derive(Clone, Copy, PartialEq, Eq, PartialOrd, Ord, Hash)]
pub struct Version {
    components: [u32; COMPONENTS],
}

impl Model for Version {
    ghost use Rattle.std.specs.Prelude.{List, ℕ};

    ghost Value = { List ℕ };

    ghost view = { λ v. v.components };

    ghost inverse = { λ numbers. record { components = numbers } };
}

impl Version {
    /// The lowest version: each of its components is 0.
    pub fn zero() -> Version
        ensures { result ≡ zero_version }
    {
        Version {
            components: [0; COMPONENTS],
        }
    }

    // rule: Version of a publisher's string
    /// Reads a version as a publisher writes it, and counts its components.
    ///
    /// A string is 1 to 4 components joined by dots. Each is a decimal number of 0 to 4294967295
    /// without leading zeros; `0` itself is one. The number beside the version is that of the
    /// components as written: `1.0.0` gives 3. Any other string is `None`: an empty one, one with a
    /// sign or a blank, or with a fifth component.
    pub fn parse(text: &str) -> Option<(Version, usize)>
        ensures { result ≡ version_of text.now }
    {
        let (components, count) = read(text, Form::Plain)?;
        Some((Version { components }, count))
    }

    // rule: Version of a client's string
    /// Reads a version as a client sends it, and accepts any string.
    ///
    /// Leading zeros are accepted, and up to 16 components. A string that spells no version so counts
    /// as `0`: an empty one, one with letters, a sign or a blank, with a component above
    /// 4294967295, or with a seventeenth component.
    pub fn lenient(text: &str) -> Version
        ensures { result ≡ lenient_version_of text.now }
    {
        let zero = [0; COMPONENTS];
        let (components, _) = read(text, Form::Lenient).unwrap_or((zero, 1));
        Version { components }
    }

    /// Reads a version as a client sends it, and counts its components.
    ///
    /// It accepts the strings that `lenient` reads, and is `None` for those that count there as `0` since they
    /// spell no version.
    pub fn read(text: &str) -> Option<(Version, usize)>
        ensures { result ≡ client_version_of text.now }
    {
        let (components, count) = read(text, Form::Lenient)?;
        Some((Version { components }, count))
    }

    /// Whether the first `count` components of this version are those of another; all sixteen if `count` is
    /// above 16.
    pub fn begins_as(&self, other: &Version, count: usize) -> bool
        ensures { result ≡ begins_as count self.now other.now }
    {
        let count = count.min(COMPONENTS);
        self.components[..count] == other.components[..count]
    }

    // rule: Order of versions
    /// Whether this version is below another, by the first component that differs.
    pub fn is_below(&self, other: &Version) -> bool
        ensures { result ≡ is_below self.now other.now }
    {
        self.components.cmp(&other.components).is_lt()
    }

    /// Whether this version has the same components as another.
    pub fn is_equal(&self, other: &Version) -> bool
        ensures equal { IsTrue result ↔ (self.now ≡ other.now) }
        ensures tested { result ≡ bytes_eq self.now other.now }
    {
        self == other
    }
}

// rule: Printed version
impl fmt::Display for Version {
    ghost output = { λ version. Some (printed version) };

    fn fmt<W: fmt::Write>(&self, f: &mut fmt::Formatter<W>) -> fmt::Result {
        let shown = (COMPONENTS - zero_count(&self.components)).max(2);
        let first = self.components[0];
        write!(f, "{first}")?;
        for component in &self.components[1..shown] {
            write!(f, ".{component}")?;
        }
        Ok(())
    }
}

// How many zeros are at the end of a version.
fn zero_count(numbers: &[u32]) -> usize
    ensures zeros { result ≡ zeros_at_end numbers.now }
    ensures within { result ≤ length numbers.now }
{
    numbers
        .iter()
        .rev()
        .take_while(|number| **number == 0)
        .count()
}
