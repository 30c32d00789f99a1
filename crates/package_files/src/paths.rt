// What a profile says of a file that is named by its path.

ghost use Rattle.std.specs.Prelude.{◌≡◌, Err, IfErr, IfOk, Ok, string_bytes};
ghost use Rattle.package_files.specs.Paths.{IsDescribed, folder_of, name_of};

use crate::describing::DescribeError;
use crate::folders::Folders;
use std::alloc::Global;
use std::path::Path;

// The folder of a path, `.` for a name alone.
fn folder_of(path: &str) -> &str
    ensures { result.now ≡ folder_of path.now }
{
    match Path::new(path).parent() {
        None => ".",
        Some(folder) => {
            let folder = folder.as_os_str();
            if folder.is_empty() { "." } else { folder }
        }
    }
}

// The name of the file at a path, empty if there is none.
fn name_of(path: &str) -> &str
    ensures { result.now ≡ name_of path.now }
{
    match Path::new(path).file_name() {
        None => "",
        Some(name) => name,
    }
}

// rule: Description of a path
/// Writes the three lines that a profile has of the file at a path: `name`, `size` and `sha256`.
///
/// A path names a folder and a file of it; a name alone is one of the folder `.`. The errors are those of
/// `describe`.
pub fn describe_path<R: Folders>(alloc: Global, rt: &R, path: &str) -> Result<String, DescribeError>
    ensures ok { IfOk result (λ text. IsDescribed (R.storage rt.now) path.now (Ok (string_bytes text))) }
    ensures err { IfErr result (λ error. IsDescribed (R.storage rt.now) path.now (Err error)) }
{
    rt.describe_in(alloc, folder_of(path), name_of(path))
}
