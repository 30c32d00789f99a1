ghost use Rattle.std.specs.Prelude.{◌≡◌, IfOk, option_map};
ghost use Rattle.std.specs.Char.{is_ascii_digit};
ghost use Rattle.std.specs.List.{list_all};
ghost use Rattle.cohorts.specs.CohortTexts.{bucket_of, has_leading_zero, is_bucket, parsed, printed};

use catalogue::form::is_cohort_name;
use std::alloc::{AllocError, Global};
use values::Text;

fn are_digits(text: &str) -> bool
    ensures { result ≡ list_all is_ascii_digit text.now }
{
    text.as_bytes().iter().all(|byte| byte.is_ascii_digit())
}

fn starts_with_zero(digits: &str) -> bool
    ensures { result ≡ has_leading_zero digits.now }
{
    digits.len() > 1 && digits.as_bytes()[0] == b'0'
}

fn is_well_formed(digits: &str) -> bool
    ensures { result ≡ is_bucket digits.now }
{
    1 <= digits.len() && digits.len() <= 3 && are_digits(digits) && !starts_with_zero(digits)
}

// Reads a bucket of one to three digits without leading zeros.
fn parse_bucket(digits: &str) -> Option<u16>
    ensures { result ≡ bucket_of digits.now }
{
    if !is_well_formed(digits) {
        return None;
    }
    digits.parse::<u16>().ok()
}

/// The string by which a client names its cohort and its bucket, as `stable:319`.
///
/// It is a cohort's name, of 1 to 32 lower-case letters, digits and `-`, a colon, and a bucket of 0
/// to 999 in decimal without leading zeros.
pub struct CohortText;

impl CohortText {
    // rule: Cohort text
    /// Reads the name and the bucket of a cohort text, or returns `None` if it is not well formed.
    ///
    /// It allocates nothing.
    pub fn parse(text: &str) -> Option<(&str, u16)>
        ensures { option_map (λ named. (named.0.now, named.1)) result ≡ parsed text.now }
    {
        let (name, digits) = text.split_once(':')?;
        let bucket = parse_bucket(digits)?;
        if !is_cohort_name(name) {
            return None;
        }
        Some((name, bucket))
    }

    /// Prints a name and a bucket, whether or not they are well formed.
    pub fn print(alloc: Global, name: &str, bucket: u16) -> Result<Text, AllocError>
        ensures { IfOk result (λ text. text ≡ printed name.now bucket) }
    {
        let text = format!(in alloc; "{name}:{bucket}")?;
        Ok(Text::new(text))
    }
}
