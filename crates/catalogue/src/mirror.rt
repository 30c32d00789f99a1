ghost use Rattle.std.specs.Prelude.{◌≡◌, codes, nat_eq};
ghost use Rattle.std.specs.List.{list_all, starts_with, ends_with};
ghost use Rattle.catalogue.specs.Mirrors.{is_codebase, is_codebase_byte, is_mirror};

use crate::form::{has_length, is_cohort_name};
use values::Text;

const MAX_BUDGET: u64 = 1 << 60;

/// A server that clients download packages from.
#[derive(Clone)]
pub struct Mirror {
    /// Its name, which is a valid cohort name and is used once.
    pub name: Text,
    /// Where its packages lie; a package's address is this followed by the package's name.
    pub codebase: Text,
    /// How many bytes it may be granted in all, at most 2^60.
    pub budget: u64,
}

// Written out, so that no caller proves again how each part is dropped.
impl Drop for Mirror {
    fn drop(self) {
        let Mirror {
            name: _,
            codebase: _,
            budget: _,
        } = self;
    }
}

fn is_codebase_byte(byte: u8) -> bool
    ensures { result ≡ is_codebase_byte byte }
{
    byte.is_ascii_graphic() && !matches!(byte, b'"' | b'#' | b'?' | b'\\')
}

fn are_codebase_bytes(text: &str) -> bool
    ensures { result ≡ list_all is_codebase_byte text.now }
{
    text.as_bytes().iter().all(|byte| is_codebase_byte(*byte))
}

fn has_scheme(text: &str) -> bool
    ensures { result ≡ starts_with nat_eq text.now (codes "http://") }
{
    text.as_bytes().starts_with(b"http://")
}

fn has_slash_last(text: &str) -> bool
    ensures { result ≡ ends_with nat_eq text.now (codes "/") }
{
    text.as_bytes().ends_with(b"/")
}

fn is_codebase(text: &str) -> bool
    ensures { result ≡ is_codebase text.now }
{
    has_length(text, 9, 256) && are_codebase_bytes(text) && has_scheme(text) && has_slash_last(text)
}

impl Mirror {
    // rule: Mirror
    /// Whether its name, its codebase and its budget have their forms: a name of 1 to 32 bytes of
    /// `a-z`, `0-9`, `-`; a codebase of 9 to 256 bytes from 0x21 to 0x7e but for `"`, `#`, `?` and
    /// `\`, which begins `http://` and ends `/`; a budget of at most 2^60.
    ///
    /// Does not check that names are unique: `read_profile` does.
    pub fn is_valid(&self) -> bool
        ensures { result ≡ is_mirror self.now }
    {
        is_cohort_name(self.name.as_str())
            && is_codebase(self.codebase.as_str())
            && self.budget <= MAX_BUDGET
    }
}
