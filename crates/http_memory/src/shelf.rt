ghost use Rattle.std.specs.Prelude.{◌≡◌, ◌+◌, ◌≤◌, length, Some};
ghost use Rattle.http_memory.specs.Shelves.{found_file, content_size, part_of_content, part_of_file, find_in, size_found, part_found};
ghost use Rattle.http_desks.specs.Downloads.{bytes_read};

use http_desks::Packages;
use http_wire::Failed;

/// The bytes of a file in memory.
#[derive(Clone, Copy, Drop)]
pub enum Content<'a> {
    /// These.
    Bytes(&'a [u8]),
    /// One byte, so many times.
    Repeated(u8, u64),
}

/// A file in memory.
#[derive(Clone, Copy, Drop)]
pub struct File<'a> {
    /// Its name.
    pub name: &'a [u8],
    /// Its bytes.
    pub content: Content<'a>,
    /// How many of its first bytes can be read: a read of any other fails.
    pub readable: u64,
}

/// The packages of files in memory, by their names. Of two files of one name only the first is found.
#[derive(Clone, Copy, Drop)]
pub struct Shelf<'a> {
    /// The files.
    pub files: &'a [File<'a>],
}

// How many bytes there are.
fn size_of(content: Content<'_>) -> u64
    ensures { result ≡ content_size content.entry }
{
    match content {
        Content::Bytes(bytes) => bytes.len() as u64,
        Content::Repeated(_, size) => size,
    }
}

// Reads a part of a content, which has it.
fn read_content(content: Content<'_>, at: u64, into: &mut [u8])
    requires { at + length into.old ≤ content_size content }
    ensures { into.new ≡ part_of_content content.entry at (length into.old) }
{
    match content {
        Content::Bytes(bytes) => {
            let at = at as usize;
            into.copy_from_slice(&bytes[at..at + into.len()]);
        }
        Content::Repeated(byte, _) => into.fill(byte),
    }
}

// rule: File in memory
// Reads a part of a file, if all of it can be read.
fn read_file(file: &File<'_>, at: u64, into: &mut [u8]) -> Result<(), Failed>
    ensures { bytes_read result into.new ≡ part_of_file file.now at (length into.old) }
{
    let readable = size_of(file.content).min(file.readable);
    if readable < at || readable - at < into.len() as u64 {
        return Err(Failed);
    }
    read_content(file.content, at, into);
    Ok(())
}

// The first file of a name.
fn find<'s, 'a>(files: &'s [File<'a>], name: &[u8]) -> Option<&'s File<'a>>
    ensures { found_file result ≡ find_in files.now name.now }
{
    for file in files {
        if file.name == name {
            return Some(file);
        }
    }
    None
}

impl Packages for Shelf<'_> {
    ghost reads = { λ shelf name at count found. found ≡ part_found (find_in shelf.files.now name) at count };

    ghost sizes = { λ shelf name found. found ≡ size_found (find_in shelf.files.now name) };

    fn size(&self, name: &[u8]) -> Option<u64> {
        match find(self.files, name) {
            Some(file) => Some(size_of(file.content)),
            None => None,
        }
    }

    fn read_at(&self, name: &[u8], at: u64, into: &mut [u8]) -> Result<(), Failed> {
        match find(self.files, name) {
            Some(file) => read_file(file, at, into),
            None => Err(Failed),
        }
    }
}
