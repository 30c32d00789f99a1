// Files in memory, of one letter each, as a row says.

use fixtures::two_parts;
use http_desks::Packages;
use http_devices::{Entry, OpenPackages};
use http_memory::{Content, File, Shelf};
use http_wire::Failed;
use std::alloc::{AllocError, Global};

// The file of a word: `a.bin=a10` has ten letters `a`; of `a.bin=a10!4` the first four can be read.
fn file_of(word: &'static str) -> Option<File<'static>> {
    let (name, said) = word.split_once('=')?;
    let letter = *said.as_bytes().first()?;
    let (size, readable) = two_parts(said.strip_prefix(letter as char)?, "!");
    let size = size.parse().ok()?;
    Some(File {
        name: name.as_bytes(),
        content: Content::Repeated(letter, size),
        readable: readable.parse().unwrap_or(size),
    })
}

/// The files of a row, with a space between two. They are never freed.
pub(crate) fn files_of(alloc: Global, row: &'static str) -> Option<Shelf<'static>> {
    let mut files = Vec::new(alloc);
    for word in row.split(' ') {
        if let Some(file) = file_of(word) {
            files.push(file).ok()?;
        }
    }
    Some(Shelf {
        files: files.leak(),
    })
}

/// A folder of such files, in which `a.bin=folder`, `a.bin=closed` and `a.bin=memory` can't be opened.
#[derive(Drop)]
pub(crate) struct RowFolder {
    row: &'static str,
    shelf: Shelf<'static>,
}

impl RowFolder {
    /// The folder of a row.
    pub(crate) fn new(alloc: Global, row: &'static str) -> Option<RowFolder> {
        let shelf = files_of(alloc, row)?;
        Some(RowFolder { row, shelf })
    }

    // What is said of a name.
    fn find(&self, name: &[u8]) -> &str {
        for word in self.row.split(' ') {
            let (given, said) = two_parts(word, "=");
            if given.as_bytes() == name {
                return said;
            }
        }
        ""
    }
}

impl OpenPackages for RowFolder {
    ghost opens = { λ _ _ _. Unit {0} };

    fn open(&self, name: &[u8]) -> Result<Entry, AllocError> {
        match self.find(name) {
            "folder" => Ok(Entry::NotRegular),
            "closed" => Ok(Entry::Unreadable),
            "memory" => Err(AllocError),
            _ => match self.shelf.size(name) {
                Some(size) => Ok(Entry::File(size)),
                None => Ok(Entry::Missing),
            },
        }
    }
}

impl Packages for RowFolder {
    ghost reads = { λ _ _ _ _ _. Unit {0} };

    ghost sizes = { λ _ _ _. Unit {0} };

    fn size(&self, name: &[u8]) -> Option<u64> {
        self.shelf.size(name)
    }

    fn read_at(&self, name: &[u8], at: u64, into: &mut [u8]) -> Result<(), Failed> {
        self.shelf.read_at(name, at, into)
    }
}
