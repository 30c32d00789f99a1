ghost use Rattle.std.specs.Prelude.{◌≡◌, Some};
ghost use Rattle.streams.specs.Strings.{begins_control, has_control, shown_string};

use percent_encoding::{CONTROLS, percent_encode};
use std::fmt;

/// A string, which prints without control characters, and as `""` if it is empty.
#[derive(Clone, Copy)]
pub struct Shown<'a> {
    /// The string as it was given.
    pub string: &'a str,
}

// rule: Shown string
impl fmt::Display for Shown<'_> {
    ghost output = { λ shown. Some (shown_string shown.string.now) };

    fn fmt<W: fmt::Write>(&self, f: &mut fmt::Formatter<W>) -> fmt::Result {
        if self.string.is_empty() {
            f.write_str("\"\"")
        } else if has_control(self.string) {
            let string = percent_encode(self.string.as_bytes(), CONTROLS);
            write!(f, "{string}")
        } else {
            f.write_str(self.string)
        }
    }
}

// Whether two bytes begin a control character outside ASCII.
fn begins_control(first: u8, second: u8) -> bool
    ensures { result ≡ begins_control first second }
{
    (first == 0xC2 && second < 0xA0) || (first == 0xE2 && second == 0x80)
}

// Whether a string has a control character.
fn has_control(string: &str) -> bool
    ensures { result ≡ has_control string.now }
{
    let bytes = string.as_bytes();
    let mut last = 0;
    for byte in bytes {
        let byte = *byte;
        if byte.is_ascii_control() || begins_control(last, byte) {
            return true;
        }
        last = byte;
    }
    false
}
