ghost use Rattle.std.specs.Prelude.{◌≡◌, ◌++◌, ◌∷◌, true, IfSome, OnOk, string_bytes};
ghost use Rattle.http_devices.specs.Files.{ReadsAt};
ghost use Rattle.http_devices.specs.Names.{is_file_name};
ghost use Rattle.http_devices.specs.Opening.{size_of};

use crate::entry::{Entry, entry_of};
use crate::name::file_name;
use crate::opening::OpenPackages;
use crate::regular::RegularFiles;
use http_desks::Packages;
use http_wire::Failed;
use std::alloc::{AllocError, Global};
use std::cell::RefCell;
use std::io::{Read, Seek, SeekFrom};

// The file that was opened last, the name that it was opened by, and room for its path.
#[derive(Drop)]
struct Opened<F: Drop> {
    file: Option<F>,
    name: String,
    path: String,
}

/// The packages of a folder, each a file of the package's name.
///
/// `open` and `size` open the file. A read is from the file that was opened last; if that has another name, the file is
/// opened again. So one download at a time reads one file, also if that is replaced meanwhile; of several at once each
/// may go on in a new file of its name. A symbolic link, a folder and what is no regular file are no package, and a
/// name that could leave the folder opens nothing.
#[derive(Drop)]
pub struct Folder<'a, S: RegularFiles<F>, F: Drop> {
    files: &'a S,
    path: &'a str,
    opened: RefCell<Opened<F>>,
}

impl<'a, S: RegularFiles<F>, F: Drop> Folder<'a, S, F> {
    /// Makes the packages of the folder at a path, which isn't looked at.
    pub fn new(alloc: Global, files: &'a S, path: &'a str) -> Folder<'a, S, F> {
        Folder {
            files,
            path,
            opened: RefCell::new(Opened {
                file: None,
                name: String::new(alloc),
                path: String::new(alloc),
            }),
        }
    }
}

// Makes a string the path of a name in a folder.
fn set_path(path: &mut String, folder: &str, name: &str) -> Result<(), AllocError>
    ensures { OnOk result (string_bytes path.new ≡ folder.now ++ 47 ∷ name.now) }
{
    path.clear();
    path.push_str(folder)?;
    path.push_str("/")?;
    path.push_str(name)
}

impl<F: Drop> Opened<F> {
    // Opens the file of a name if it is a regular one, and returns what there is.
    fn open<S: RegularFiles<F>>(
        &mut self,
        files: &S,
        folder: &str,
        name: &str,
    ) -> Result<Entry, AllocError>
        ensures name { OnOk result (string_bytes self.new.name ≡ name.now) }
        ensures path { OnOk result (string_bytes self.new.path ≡ folder.now ++ 47 ∷ name.now) }
    {
        self.file = None;
        self.name.clear();
        set_path(&mut self.path, folder, name)?;
        self.name.push_str(name)?;
        match files.open_regular(self.path.as_str()) {
            Ok(Some((file, size))) => {
                self.file = Some(file);
                Ok(Entry::File(size))
            }
            Ok(None) => Ok(Entry::NotRegular),
            Err(error) => entry_of(&error),
        }
    }
}

// rule: Read at an offset
// Reads from an offset until the bytes are full.
fn read_from<F: Read + Seek>(file: &mut F, at: u64, into: &mut [u8]) -> Result<(), Failed>
    ensures { OnOk result (ReadsAt F.stream_position F.remaining file.old file.new at into.new) }
{
    match file.seek(SeekFrom::Start(at)) {
        Ok(_) => {}
        Err(_) => return Err(Failed),
    }
    match file.read_exact(into) {
        Ok(()) => Ok(()),
        Err(_) => Err(Failed),
    }
}

impl<'a, S: RegularFiles<F>, F: Drop> OpenPackages for Folder<'a, S, F> {
    // a size is that of a file of the folder
    ghost opens = { λ _ name entry. IfSome (size_of entry) (λ _. is_file_name name ≡ true) };

    fn open(&self, name: &[u8]) -> Result<Entry, AllocError> {
        let Some(name) = file_name(name) else {
            return Ok(Entry::Missing);
        };
        match self.opened.try_borrow_mut() {
            Ok(mut opened) => opened.open(self.files, self.path, name),
            Err(_) => Ok(Entry::Unreadable),
        }
    }
}

impl<'a, S: RegularFiles<F>, F: Read + Seek + Drop> Packages for Folder<'a, S, F> {
    // a size is that of a file of the folder
    ghost sizes = { λ _ name size. IfSome size (λ _. is_file_name name ≡ true) };

    // bytes are those of a file of the folder
    ghost reads = { λ _ name _ _ bytes. IfSome bytes (λ _. is_file_name name ≡ true) };

    fn size(&self, name: &[u8]) -> Option<u64> {
        match self.open(name) {
            Ok(Entry::File(size)) => Some(size),
            _ => None,
        }
    }

    fn read_at(&self, name: &[u8], at: u64, into: &mut [u8]) -> Result<(), Failed> {
        let Some(name) = file_name(name) else {
            return Err(Failed);
        };
        let Ok(mut opened) = self.opened.try_borrow_mut() else {
            return Err(Failed);
        };
        if opened.name.as_str() != name {
            let _ = opened.open(self.files, self.path, name);
        }
        match &mut opened.file {
            Some(file) => read_from(file, at, into),
            None => Err(Failed),
        }
    }
}
