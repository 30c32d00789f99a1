use std::fs::OpenFile;
use std::rt::Files;
use std::{fs, io};

/// Opens regular files by their paths.
///
/// The type of a file is a parameter, and no associated type, so that threads may share what opens files.
pub trait RegularFiles<F> {
    /// Opens the regular file at a path, and returns it with its size; or nothing if there is a symbolic link, a
    /// folder or any other kind of file. Fails if there is no file, or it can't be opened.
    fn open_regular(&self, path: &str) -> io::Result<Option<(F, u64)>>;
}

impl<R: Files> RegularFiles<R::File> for R {
    fn open_regular(&self, path: &str) -> io::Result<Option<(R::File, u64)>> {
        if !self.symlink_metadata(path)?.is_file() {
            return Ok(None);
        }
        let file = fs::open(self, path)?;
        let found = file.metadata()?;
        if !found.is_file() {
            return Ok(None);
        }
        Ok(Some((file, found.len())))
    }
}
