//! Strings of edits, compared byte by byte.

ghost use Rattle.std.specs.Prelude.{◌≡◌, ◌↔◌, IsTrue};

use values::{Items, Text};

pub(crate) fn is_same_string(one: &Text, other: &Text) -> bool
    ensures { IsTrue result ↔ (one.now ≡ other.now) }
{
    one.as_str() == other.as_str()
}

pub(crate) fn is_same_option(one: &Option<Text>, other: &Option<Text>) -> bool
    ensures { IsTrue result ↔ (one.now ≡ other.now) }
{
    match one {
        Some(one) => match other {
            Some(other) => is_same_string(one, other),
            None => false,
        },
        None => other.is_none(),
    }
}

fn are_same_strings(one: &[Text], other: &[Text]) -> bool
    ensures { IsTrue result ↔ (one.now ≡ other.now) }
{
    if one.len() != other.len() {
        return false;
    }
    for index in 0..one.len() {
        if !is_same_string(&one[index], &other[index]) {
            return false;
        }
    }
    true
}

pub(crate) fn is_same_list(one: &Option<Items<Text>>, other: &Option<Items<Text>>) -> bool
    ensures { IsTrue result ↔ (one.now ≡ other.now) }
{
    match one {
        Some(one) => match other {
            Some(other) => are_same_strings(one.as_slice(), other.as_slice()),
            None => false,
        },
        None => other.is_none(),
    }
}
