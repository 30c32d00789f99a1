// How a string is read as the numbers of a version.

ghost use Rattle.std.specs.Prelude.{◌≡◌, ◌&&◌, ◌==◌, length, nat_lt, slice_index};
ghost use Rattle.catalogue.specs.Versions.{components_of, has_leading_zero, max_components, number_in, number_of};

/// How many components a version has, those that a string leaves out among them.
pub(crate) const COMPONENTS: usize = 16;

/// How freely a string may spell a version.
#[derive(Clone, Copy)]
pub(crate) enum Form {
    /// As a publisher writes it: up to four components, without leading zeros.
    Plain,
    /// As a client sends it: up to sixteen components, with leading zeros or without.
    Lenient,
}

/// Reads the components of a string, and counts those that it writes.
///
/// `None` if the string spells no version in this form.
pub(crate) fn read(text: &str, form: Form) -> Option<([u32; COMPONENTS], usize)>
    ensures { result ≡ components_of form text.now }
{
    let mut components = [0; COMPONENTS];
    let mut count = 0;
    for part in text.split('.') {
        if count == most(form) {
            return None;
        }
        components[count] = component(part, form)?;
        count += 1;
    }
    Some((components, count))
}

// How many components a string may have.
fn most(form: Form) -> usize
    ensures { result ≡ max_components form }
{
    match form {
        Form::Plain => 4,
        Form::Lenient => COMPONENTS,
    }
}

// The number that one part spells.
fn component(part: &str, form: Form) -> Option<u32>
    ensures { result ≡ number_in form part.now }
{
    match form {
        Form::Plain if leads_with_zero(part) => None,
        _ => number(part),
    }
}

// Whether a zero is before further digits.
fn leads_with_zero(part: &str) -> bool
    ensures { result ≡ has_leading_zero part.now }
{
    part.len() > 1 && part.as_bytes()[0] == b'0'
}

// The number that decimal digits spell; std's `parse` alone would take a `+`.
fn number(digits: &str) -> Option<u32>
    ensures { result ≡ number_of digits.now }
{
    if has_plus(digits) {
        return None;
    }
    digits.parse::<u32>().ok()
}

// Whether a string begins with a `+`.
fn has_plus(text: &str) -> bool
    ensures { result ≡ (slice_index text.now 0 == 43) }
{
    !text.is_empty() && text.as_bytes()[0] == b'+'
}
