// Pins: which versions an administrator allows a client's app.

ghost use Rattle.std.specs.Prelude.{◌≡◌, ◌<◌, option_map};
ghost use Rattle.cohorts.specs.Pins.{before, matches, pin_of};

use catalogue::Version;

/// Which versions a client's app may be brought to, by the prefix that its administrator set.
#[derive(Clone, Copy, PartialEq, Eq, Hash)]
pub enum Pin {
    /// Any version.
    Any,
    /// The versions whose first components are those of `catalogue`, so many.
    Prefix {
        /// The version that the components are of.
        version: Version,
        /// How many of its components count, at most 16.
        count: usize,
    },
    /// This version alone.
    Only(Version),
    /// No version.
    Nothing,
}

// What is before a character at the end of a string, if the string ends with it.
fn before(text: &str, end: char) -> Option<&str>
    requires { end < 128 }
    ensures { option_map (λ start. start.now) result ≡ before end text.now }
{
    text.strip_suffix(end)
}

impl Pin {
    // rule: Pin of a prefix
    /// Reads the prefix of versions that a client sends as `targetversionprefix`, and accepts any string.
    ///
    /// - The empty string allows any version.
    /// - Components as in a client's version, with at most one dot after them, allow the versions that begin with
    ///   them: `1.2` and `1.2.` allow `1.2` and `1.2.3`, but not `1.20`.
    /// - Components and then `$` allow that version alone.
    /// - Any other string allows none.
    pub fn parse(text: &str) -> Pin
        ensures { result ≡ pin_of text.now }
    {
        if text.is_empty() {
            return Pin::Any;
        }
        if let Some(start) = before(text, '$') {
            return match Version::read(start) {
                Some((version, _)) => Pin::Only(version),
                None => Pin::Nothing,
            };
        }
        match Version::read(before(text, '.').unwrap_or(text)) {
            Some((version, count)) => Pin::Prefix { version, count },
            None => Pin::Nothing,
        }
    }

    // rule: Version that a pin matches
    /// Whether the pin allows a version.
    pub fn matches(&self, version: &Version) -> bool
        ensures { result ≡ matches self.now version.now }
    {
        match self {
            Pin::Any => true,
            Pin::Prefix {
                version: first,
                count,
            } => version.begins_as(first, *count),
            Pin::Only(only) => version.is_equal(only),
            Pin::Nothing => false,
        }
    }
}
