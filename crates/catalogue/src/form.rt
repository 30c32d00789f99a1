//! The forms of strings and numbers that edits are tested for.

ghost use Rattle.std.specs.Prelude.{◌≡◌, ◌&&◌, ◌==◌, true, map, nat_le, slice_index};
ghost use Rattle.std.specs.Char.{is_ascii_graphic, to_ascii_lowercase};
ghost use Rattle.std.specs.List.{list_all};
ghost use Rattle.catalogue.specs.Forms.{has_length, hash_named, hash_of, is_app_id, is_cohort_byte, is_cohort_name, is_hash_digit, is_package_byte, is_package_name, is_size, same_id};

use hex::FromHex;

const MAX_BYTES: u64 = 1 << 40;

/// Whether a string has from `least` to `most` bytes.
pub(crate) fn has_length(text: &str, least: usize, most: usize) -> bool
    ensures { result ≡ has_length least most text.now }
{
    least <= text.len() && text.len() <= most
}

fn are_visible(text: &str) -> bool
    ensures { result ≡ list_all is_ascii_graphic text.now }
{
    text.as_bytes().iter().all(|byte| byte.is_ascii_graphic())
}

// rule: App identifier
/// Whether a string is an app's identifier.
pub fn is_app_id(text: &str) -> bool
    ensures { result ≡ is_app_id text.now }
{
    has_length(text, 1, 256) && are_visible(text)
}

// Whether two strings have one length, and last bytes that are equal but for case. The identifiers of one vendor
// begin alike, so most pairs differ here.
fn ends_alike(left: &[u8], right: &[u8]) -> bool
    ensures { map to_ascii_lowercase left.now ≡ map to_ascii_lowercase right.now → result ≡ true }
{
    if left.len() != right.len() {
        return false;
    }
    match left.len().checked_sub(1) {
        Some(last) => left[last].eq_ignore_ascii_case(&right[last]),
        None => true,
    }
}

// rule: Same app
/// Whether two identifiers name one app.
pub(crate) fn is_same_id(left: &str, right: &str) -> bool
    ensures { result ≡ same_id left.now right.now }
{
    ends_alike(left.as_bytes(), right.as_bytes()) && left.eq_ignore_ascii_case(right)
}

fn is_cohort_byte(byte: u8) -> bool
    ensures { result ≡ is_cohort_byte byte }
{
    byte.is_ascii_lowercase() || byte.is_ascii_digit() || byte == b'-'
}

fn are_cohort_bytes(text: &str) -> bool
    ensures { result ≡ list_all is_cohort_byte text.now }
{
    text.as_bytes().iter().all(|byte| is_cohort_byte(*byte))
}

// rule: Cohort name
/// Whether a string is a cohort's name: 1 to 32 bytes of `a-z`, `0-9` and `-`.
pub fn is_cohort_name(text: &str) -> bool
    ensures { result ≡ is_cohort_name text.now }
{
    has_length(text, 1, 32) && are_cohort_bytes(text)
}

fn is_package_byte(byte: u8) -> bool
    ensures { result ≡ is_package_byte byte }
{
    byte.is_ascii_alphanumeric() || byte == b'.' || byte == b'_' || byte == b'-'
}

fn are_package_bytes(text: &str) -> bool
    ensures { result ≡ list_all is_package_byte text.now }
{
    text.as_bytes().iter().all(|byte| is_package_byte(*byte))
}

fn has_dot_first(text: &str) -> bool
    ensures { result ≡ (slice_index text.now 0 == 46) }
{
    matches!(text.as_bytes(), [b'.', ..])
}

// rule: Package name
/// Whether a string is a package's name.
pub fn is_package_name(text: &str) -> bool
    ensures { result ≡ is_package_name text.now }
{
    has_length(text, 1, 128) && are_package_bytes(text) && !has_dot_first(text)
}

fn is_hash_digit(byte: u8) -> bool
    ensures { result ≡ is_hash_digit byte }
{
    byte.is_ascii_digit() || matches!(byte, b'a'..=b'f')
}

fn are_hash_digits(text: &str) -> bool
    ensures { result ≡ list_all is_hash_digit text.now }
{
    text.as_bytes().iter().all(|byte| is_hash_digit(*byte))
}

// rule: Hash
/// Reads a hash of 64 lower-case hexadecimal digits.
#[tactic(auto, unfolding(crate::specs::Forms::hash_of))]
pub fn hash_of(text: &str) -> Option<[u8; 32]>
    ensures { result ≡ hash_of text.now }
{
    if !are_hash_digits(text) {
        return None;
    }
    <[u8; 32] as FromHex>::from_hex(text).ok()
}

/// Reads a hash, and takes any other string for 32 zeros.
pub fn hash_named(text: &str) -> [u8; 32]
    ensures { result ≡ hash_named text.now }
{
    hash_of(text).unwrap_or([0; 32])
}

// rule: Size
/// Whether a number is that of a package's bytes.
pub fn is_size(size: u64) -> bool
    ensures { result ≡ is_size size }
{
    1 <= size && size <= MAX_BYTES
}
