// The files of sockets at paths.

use std::fs::{Metadata, Permissions};
use std::io;
use std::io::ErrorKind;
use std::net::Net;
use std::os::unix::fs::{FileTypeExt, MetadataExt, PermissionsExt};
use std::os::unix::net::{UnixListener, UnixStream};
use std::rt::Files;
use std::sync::atomic::{AtomicU64, Ordering};

// The mode of the file of a socket: its owner and its group may connect.
const SOCKET_MODE: u32 = 0o660;

/// Which file a socket has, by its device and its inode there; none until it is bound.
///
/// While the socket listens, no other file gets its inode, also if its name is removed.
#[derive(Drop)]
pub(crate) struct SocketFile {
    device: AtomicU64,
    inode: AtomicU64,
}

impl SocketFile {
    /// No file.
    pub(crate) fn new() -> SocketFile {
        SocketFile {
            device: AtomicU64::new(0),
            inode: AtomicU64::new(0),
        }
    }

    // Keeps which file it is.
    fn set(&self, found: &Metadata) {
        self.device.store(found.dev(), Ordering::SeqCst);
        self.inode.store(found.ino(), Ordering::SeqCst);
    }

    /// Whether what was found at a path is this file. No file has the inode 0.
    pub(crate) fn is_of(&self, found: &Metadata) -> bool {
        let device = self.device.load(Ordering::SeqCst);
        let inode = self.inode.load(Ordering::SeqCst);
        inode != 0 && inode == found.ino() && device == found.dev()
    }
}

// Whether nobody listens at a socket any more.
fn is_left_over<R: Net>(rt: &R, path: &str) -> bool {
    match UnixStream::connect(rt, path) {
        Ok(_) => false,
        Err(error) => error.kind() == ErrorKind::ConnectionRefused,
    }
}

// Whether a listener may take a path: there is nothing, or a socket that a server left.
fn may_take<R: Files + Net>(rt: &R, path: &str) -> bool {
    match rt.symlink_metadata(path) {
        Ok(found) => found.file_type().is_socket() && is_left_over(rt, path),
        Err(error) => error.kind() == ErrorKind::NotFound,
    }
}

/// Listens at a path, and keeps which file the socket has. It gets its name once its mode is set. What either name has is
/// left as it is, unless it is a socket that a server left.
pub(crate) fn bind_path<R: Files + Net + AllocGlobal>(
    rt: &R,
    path: &str,
    file: &SocketFile,
) -> io::Result<UnixListener> {
    let Ok(new) = format!(in rt.alloc(); "{path}.new") else {
        return Err(io::Error::from(ErrorKind::OutOfMemory));
    };
    if !may_take(rt, path) || !may_take(rt, &new) {
        return Err(io::Error::from(ErrorKind::AddrInUse));
    }
    let _ = rt.remove_file(&new);
    let listener = UnixListener::bind(rt, &new)?;
    rt.set_permissions(&new, Permissions::from_mode(SOCKET_MODE))?;
    let found = rt.symlink_metadata(&new)?;
    rt.rename(&new, path)?;
    file.set(&found);
    Ok(listener)
}
