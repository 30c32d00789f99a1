//! What a profile says of a file.

ghost use Rattle.std.specs.Prelude.{◌≡◌, Err, IfErr, IfOk, Ok, Some, string_bytes};
ghost use Rattle.hex.specs.Hex.{encode_lower};
ghost use Rattle.package_files.specs.Descriptions.{Describes, IsSized, IsUnopened, description_string};

use crate::hashing::hash_package;
use catalogue::form::{is_package_name, is_size};
use http_desks::{BLOCK, Packages};
use http_devices::{Entry, OpenPackages};
use std::alloc::{AllocError, Global};
use std::error::Error;
use std::fmt;

/// Why a file is not described.
#[derive(Clone, Copy, Debug, Drop)]
pub enum DescribeError {
    /// The name is no package's name: no profile can have it.
    Name,
    /// There is no such file.
    Missing,
    /// It is a symbolic link, a folder or another kind of file.
    NotRegular,
    /// The file has so many bytes, which no profile may have.
    Size(u64),
    /// The file couldn't be opened, or not read to its end.
    Unreadable,
    /// Memory ran out.
    Memory,
}

/// Writes why in a few words.
impl fmt::Display for DescribeError {
    ghost use Rattle.package_files.specs.Descriptions.{error_string};

    ghost output = { λ error. Some (error_string error) };

    fn fmt<W: fmt::Write>(&self, f: &mut fmt::Formatter<W>) -> fmt::Result {
        match self {
            DescribeError::Name => f.write_str("no package name"),
            DescribeError::Missing => f.write_str("missing"),
            DescribeError::NotRegular => f.write_str("not a regular file"),
            DescribeError::Size(size) => write!(f, "size {size}, allowed 1 to 1099511627776"),
            DescribeError::Unreadable => f.write_str("unreadable"),
            DescribeError::Memory => f.write_str("memory"),
        }
    }
}

impl Error for DescribeError {}

impl From<AllocError> for DescribeError {
    ghost use Rattle.std.specs.Prelude.{◌≡◌};
    ghost use Rattle.package_files.specs.declared.describing.DescribeError.TheVariants.{Memory};

    ghost from_gives = { λ _ error. error ≡ Memory };

    fn from(_refused: AllocError) -> DescribeError {
        DescribeError::Memory
    }
}

// The three lines of a file.
#[derive(Clone, Copy)]
struct Description<'a> {
    name: &'a str,
    size: u64,
    digits: &'a str,
}

impl fmt::Display for Description<'_> {
    ghost output = { λ file. Some (description_string file.name.now file.size file.digits.now) };

    fn fmt<W: fmt::Write>(&self, f: &mut fmt::Formatter<W>) -> fmt::Result {
        let name = self.name;
        let size = self.size;
        let digits = self.digits;
        write!(
            f,
            "name = \"{name}\"\nsize = {size}\nsha256 = \"{digits}\"\n"
        )
    }
}

// Writes the three lines of a file.
fn write_lines(alloc: Global, name: &str, size: u64, hash: [u8; 32]) -> Result<String, AllocError>
    ensures { IfOk result (λ text. string_bytes text ≡ description_string name.now size (encode_lower hash)) }
{
    let digits = hex::encode(alloc, hash)?;
    let description = Description {
        name,
        size,
        digits: digits.as_str(),
    };
    format!(in alloc; "{description}")
}

// Opens the file of a name, and returns its size, which a profile may have.
fn open_sized<P: OpenPackages>(packages: &P, name: &[u8]) -> Result<u64, DescribeError>
    ensures ok { IfOk result (λ size. IsSized (P.opens packages.now name.now) size) }
    ensures err { IfErr result (IsUnopened (P.opens packages.now name.now)) }
{
    match packages.open(name)? {
        Entry::File(size) if is_size(size) => Ok(size),
        Entry::File(size) => Err(DescribeError::Size(size)),
        Entry::Missing => Err(DescribeError::Missing),
        Entry::NotRegular => Err(DescribeError::NotRegular),
        Entry::Unreadable => Err(DescribeError::Unreadable),
    }
}

// rule: Description of a file
/// Writes the three lines that a profile has of a file: `name`, `size` and `sha256`.
///
/// Fails with `Name` if the name is no package's name; then with `Missing`, `NotRegular` or `Unreadable` if there is
/// no such file, it is no regular one, or it can't be opened; then with `Size` unless it has 1 to 2^40 bytes, before
/// any is read; then with `Unreadable` if it can't be read to its end. Fails with `Memory` if an allocation fails. At
/// most 65536 bytes of the file are held.
pub fn describe<P: Packages + OpenPackages>(
    alloc: Global,
    packages: &P,
    name: &str,
) -> Result<String, DescribeError>
    ensures ok { IfOk result (λ text. Describes (P.opens packages.now name.now)
        (P.reads packages.now name.now) name.now (Ok (string_bytes text))) }
    ensures err { IfErr result (λ error. Describes (P.opens packages.now name.now)
        (P.reads packages.now name.now) name.now (Err error)) }
{
    if !is_package_name(name) {
        return Err(DescribeError::Name);
    }
    let bytes = name.as_bytes();
    let size = match open_sized(packages, bytes) {
        Ok(size) => size,
        Err(error) => return Err(error),
    };
    let mut block = vec![in alloc; 0; BLOCK as usize]?;
    let Some(hash) = hash_package(packages, &mut block, bytes, size) else {
        return Err(DescribeError::Unreadable);
    };
    Ok(write_lines(alloc, name, size, hash)?)
}
