// The system's sockets, files and clock.

ghost use Rattle.std.specs.Prelude.{◌≡◌, All, IfOk, map};
ghost use Rattle.systems.specs.Sockets.{IsNewSocketPort};

use crate::mio_ports::{EndSign, Listener, MioPort};
use crate::socket_files::{SocketFile, bind_path};
use crate::system::{OpenError, System};
use http_desks::{Desk, Packages};
use http_devices::Folder;
use http_ports::{Port, Terms, WatchEach};
use http_sessions::{Connections, serve_port};
use std::alloc::{AllocError, Global};
use std::fs::{File, Metadata, OpenOptions};
use std::io;
use std::io::ErrorKind;
use std::net::{Net, TcpListener, TcpStream};
use std::os::unix::fs::FileTypeExt;
use std::rt::Files;
use std::sync::{Arc, Wait};
use std::time::Clock;
use streams::Disk;

// How many files a server opens beside its connections: standard streams, the log, and for each worker what watches its
// sockets and a package.
const OTHER_FILES: u64 = 48;

/// A runtime's file, of which a log can be made.
pub trait LogFile {
    /// The file to write lines to; fails if it isn't one of the system's.
    fn into_log(self) -> io::Result<File>;
}

impl LogFile for File {
    fn into_log(self) -> io::Result<File> {
        Ok(self)
    }
}

/// How ports end, by the number of their listener: whether they are asked to, and which files their sockets leave.
#[derive(Drop)]
pub struct EndSigns {
    clients: EndSign,
    operator: EndSign,
    clients_file: SocketFile,
    operator_file: SocketFile,
}

impl EndSigns {
    /// No port is asked to end, and there is no socket. The operator's listener stays bound until its port is gone, so that
    /// whoever waits for the end of a server sees it there.
    pub fn new() -> EndSigns {
        EndSigns {
            clients: EndSign::new(false),
            operator: EndSign::new(true),
            clients_file: SocketFile::new(),
            operator_file: SocketFile::new(),
        }
    }

    // The sign of the ports of a listener's number.
    fn sign(&self, listener: u64) -> &EndSign {
        if listener == 0 {
            &self.clients
        } else {
            &self.operator
        }
    }

    // What keeps the file of the socket of a listener's number.
    fn file(&self, listener: u64) -> &SocketFile {
        if listener == 0 {
            &self.clients_file
        } else {
            &self.operator_file
        }
    }

    // Whether a file is that of a socket that was bound here.
    fn has_file(&self, found: &Metadata) -> bool {
        self.clients_file.is_of(found) || self.operator_file.is_of(found)
    }
}

/// The sockets, files and clock of a runtime, as a server's system.
#[derive(Drop)]
pub struct Sockets<'a, R> {
    /// The runtime.
    pub rt: &'a R,
    /// How its ports end: those of the listener 0, and all others.
    pub signs: &'a EndSigns,
}

// The number in a line of `/proc/self/limits` that says how many files may be open.
fn limit_in(line: &str) -> Option<u64> {
    let rest = line.strip_prefix("Max open files")?;
    rest.split_whitespace().next()?.parse().ok()
}

// How many files the process may have open, if the system says so.
fn file_limit<R: Disk + AllocGlobal>(rt: &R) -> Option<u64> {
    let bytes = rt.read_file(rt.alloc(), "/proc/self/limits", 65536).ok()?;
    let text = std::str::from_utf8(&bytes).ok()?;
    text.lines().find_map(limit_in)
}

// Binds an address, or a path after `unix:`, and keeps which file the socket there has.
fn bind<R: Net<Listener = TcpListener, Stream = TcpStream> + Files + AllocGlobal>(
    rt: &R,
    address: &str,
    file: &SocketFile,
) -> io::Result<Listener> {
    let listener = match address.strip_prefix("unix:") {
        Some(path) => Listener::Unix(bind_path(rt, path, file)?),
        None => Listener::Tcp(TcpListener::bind(rt, address)?),
    };
    listener.set_nonblocking(true)?;
    Ok(listener)
}

// Whether two more files may be opened: a connection and a package take one each, and without them nobody would be served.
fn has_room(listener: &Listener) -> bool {
    let connection = listener.try_clone();
    let package = listener.try_clone();
    connection.is_ok() && package.is_ok()
}

// Opens a port of a listener.
fn open_one<'a, R: Net + Clock + Wait + AllocGlobal>(
    rt: &'a R,
    listener: &Arc<Listener, Global>,
    signs: &'a EndSigns,
    terms: Terms,
) -> Result<MioPort<'a, R>, OpenError>
    ensures terms { IfOk result (λ port. port.terms ≡ terms) }
    ensures new { IfOk result IsNewSocketPort }
{
    let sign = signs.sign(terms.listener);
    match MioPort::new(rt, listener.clone()?, sign, terms) {
        Some(port) => Ok(port),
        None if has_room(&**listener) => Err(OpenError::Memory),
        None => Err(OpenError::Net),
    }
}

// Opens a port of a listener for each of these terms.
fn open_all<'a, R: Net + Clock + Wait + AllocGlobal>(
    rt: &'a R,
    listener: &Arc<Listener, Global>,
    signs: &'a EndSigns,
    terms: &[Terms],
) -> Result<Vec<MioPort<'a, R>>, OpenError>
    ensures terms { IfOk result (λ ports. map (λ port. port.terms) ports.items ≡ terms.now) }
    ensures new { IfOk result (λ ports. All IsNewSocketPort ports.items) }
{
    let mut ports = Vec::new(rt.alloc());
    for each in terms {
        let port = open_one(rt, listener, signs, *each)?;
        let Ok(()) = ports.push(port) else {
            return Err(OpenError::Memory);
        };
    }
    if !has_room(&**listener) {
        return Err(OpenError::Net);
    }
    Ok(ports)
}

impl<
    'a,
    R: Net<Listener = TcpListener, Stream = TcpStream> + Clock + Files + Wait + AllocGlobal,
> System<MioPort<'a, R>> for Sockets<'a, R>
where
    R::File: LogFile,
{
    ghost use Rattle.std.specs.Prelude.{⊤};
    ghost use Rattle.systems.specs.Sockets.{has_bytes, has_size};

    // a size and bytes are those of a file of the folder
    ghost edges = { λ _. record {
      holds = λ _ _ _. ⊤;
      listens = λ _ _. ⊤;
      folders = λ _. ⊤;
      sizes = λ _. has_size;
      reads = λ _. has_bytes;
      logs = λ _. ⊤;
    } };

    fn capacity(&self, connections: u64, ports: usize) -> usize {
        let ports = (ports as u64).max(1);
        let files = file_limit(self.rt).unwrap_or(1024);
        let allowed = files.saturating_sub(OTHER_FILES) / ports;
        let share = connections / ports;
        share.min(allowed).max(1).min(1 << 20) as usize
    }

    fn open_ports(&self, address: &str, terms: &[Terms]) -> Result<Vec<MioPort<'a, R>>, OpenError> {
        let number = match terms.first() {
            Some(first) => first.listener,
            None => 0,
        };
        let Ok(listener) = bind(self.rt, address, self.signs.file(number)) else {
            return Err(OpenError::Net);
        };
        let Ok(listener) = Arc::new(self.rt.alloc(), listener) else {
            return Err(OpenError::Memory);
        };
        open_all(self.rt, &listener, self.signs, terms)
    }

    fn address_of(
        &self,
        alloc: Global,
        port: &MioPort<'a, R>,
        address: &str,
    ) -> Result<String, AllocError> {
        match port.local_address() {
            Some(given) => format!(in alloc; "{given}"),
            None => format!(in alloc; "{address}"),
        }
    }

    fn end_ports(&self, listener: u64) {
        self.signs.sign(listener).set();
    }

    fn close_address(&self, address: &str) {
        let Some(path) = address.strip_prefix("unix:") else {
            return;
        };
        if let Ok(found) = self.rt.symlink_metadata(path) {
            if self.signs.has_file(&found) {
                let _ = self.rt.remove_file(path);
            }
        }
    }

    fn open_log(&self, path: &str) -> io::Result<File> {
        if let Ok(found) = self.rt.metadata(path) {
            if found.file_type().is_fifo() {
                return Err(io::Error::from(ErrorKind::InvalidInput));
            }
        }
        let mut options = OpenOptions::new();
        options.append(true).create(true);
        options.open(self.rt, path)?.into_log()
    }

    fn has_folder(&self, path: &str) -> bool {
        match self.rt.metadata(path) {
            Ok(found) => found.is_dir(),
            Err(_) => false,
        }
    }

    fn package_size(&self, folder: &str, name: &[u8]) -> Option<u64> {
        Folder::new(self.rt.alloc(), self.rt, folder).size(name)
    }

    fn serve_port<'f, Q: Port, D: Desk, V: WatchEach>(
        &'f self,
        folder: &'f str,
        port: &mut Q,
        room: Connections<V::Seen>,
        desk: &mut D,
        watch: &V,
    ) -> u64 {
        let rt: &'f R = self.rt;
        let packages = Folder::new(rt.alloc(), rt, folder);
        serve_port(rt, port, &packages, watch, room, desk)
    }
}
