ghost use Rattle.std.specs.Prelude.{◌≡◌, ◌==◌, true, IfSome, slice_index};
ghost use Rattle.std.specs.List.{list_all};
ghost use Rattle.http_devices.specs.Names.{is_file_name, is_name_byte};

use std::str;

fn is_name_byte(byte: u8) -> bool
    ensures { result ≡ is_name_byte byte }
{
    byte != b'/' && byte != 0
}

fn are_name_bytes(name: &[u8]) -> bool
    ensures { result ≡ list_all is_name_byte name.now }
{
    name.iter().all(|byte| is_name_byte(*byte))
}

fn has_dot_first(name: &[u8]) -> bool
    ensures { result ≡ (slice_index name.now 0 == 46) }
{
    matches!(name, [b'.', ..])
}

// Whether the bytes are a file's name.
fn is_file_name(name: &[u8]) -> bool
    ensures { result ≡ is_file_name name.now }
{
    1 <= name.len() && name.len() <= 255 && are_name_bytes(name) && !has_dot_first(name)
}

// rule: Name of a file
/// Returns the string that the bytes are, if they are a file's name and UTF-8.
pub(crate) fn file_name(name: &[u8]) -> Option<&str>
    ensures text { IfSome result (λ text. text.now ≡ name.now) }
    ensures file { IfSome result (λ _. is_file_name name.now ≡ true) }
{
    if !is_file_name(name) {
        return None;
    }
    str::from_utf8(name).ok()
}
