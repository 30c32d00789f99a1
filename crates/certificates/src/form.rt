//! The forms of the parts of a line.

ghost use Rattle.std.specs.Prelude.{◌≡◌, Some, true};
ghost use Rattle.std.specs.Str.Parse.{digits_value};
ghost use Rattle.std.specs.Char.{is_ascii_digit};
ghost use Rattle.std.specs.List.{list_all};
ghost use Rattle.certificates.specs.Forms.{first_of, has_leading_zero, is_either, is_plain, is_version, number_below, rest_of};

use catalogue::Version;

/// What is before the first space of a line, and what is after it; nothing if it has none.
pub(crate) fn split_first(line: &str) -> (&str, &str)
    ensures first { result.0.now ≡ first_of line.now }
    ensures rest { result.1.now ≡ rest_of line.now }
{
    match line.split_once(' ') {
        Some(parts) => parts,
        None => (line, ""),
    }
}

fn are_digits(text: &str) -> bool
    ensures { result ≡ list_all is_ascii_digit text.now }
{
    text.as_bytes().iter().all(|byte| byte.is_ascii_digit())
}

fn starts_with_zero(digits: &str) -> bool
    ensures { result ≡ has_leading_zero digits.now }
{
    digits.len() > 1 && digits.as_bytes()[0] == b'0'
}

fn is_plain(digits: &str) -> bool
    ensures { result ≡ is_plain digits.now }
{
    1 <= digits.len() && digits.len() <= 16 && are_digits(digits) && !starts_with_zero(digits)
}

fn value_of(digits: &str) -> Option<u64>
    requires { is_plain digits.now ≡ true }
    ensures { result ≡ Some (digits_value 10 digits.now) }
{
    digits.parse::<u64>().ok()
}

// rule: Number of a certificate
/// The number below a bound that digits without leading zeros spell.
pub(crate) fn number_below(bound: u64, digits: &str) -> Option<u64>
    ensures { result ≡ number_below bound digits.now }
{
    if !is_plain(digits) {
        return None;
    }
    match value_of(digits) {
        Some(number) if number < bound => Some(number),
        _ => None,
    }
}

/// Whether a string is a publisher's version.
pub(crate) fn is_version(text: &str) -> bool
    ensures { result ≡ is_version text.now }
{
    Version::parse(text).is_some()
}

/// Whether a string is one of two.
pub(crate) fn is_either(one: &str, other: &str, text: &str) -> bool
    ensures { result ≡ is_either one.now other.now text.now }
{
    text == one || text == other
}
