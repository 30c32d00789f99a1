//! A second look at what failed.

ghost use Rattle.std.specs.Prelude.{◌≡◌, IfOk, IfSome, Some, codes, string_bytes};
ghost use Rattle.advice.specs.Addresses.{address_remedy};
ghost use Rattle.advice.specs.Looks.{IsAddressAdvice, IsLook, IsOddLook, IsServerAdvice, look_string, seen_string, wanted_of};
ghost use Rattle.advice.specs.declared.looks.Aim.TheVariants as aim;

use crate::addresses::given_fault;
use std::alloc::{AllocError, Global};
use std::fs::OpenOptions;
use std::io::ErrorKind;
use std::net::{Net, TcpListener, TcpStream, ToSocketAddrs};
use std::os::unix::net::UnixStream;
use std::rt::Files;
use std::time::Duration;
use std::{fmt, fs};
use streams::Shown;

/// What is tried a second time.
#[derive(Clone, Copy)]
pub enum Aim {
    /// To connect to an address.
    Connect,
    /// To post what changes something to an address.
    Post,
    /// To listen at an address.
    Bind,
    /// To read a file.
    Read,
    /// To add lines to a file.
    Append,
    /// To find a folder.
    Enter,
}

/// What a second look finds.
#[derive(Clone, Copy, PartialEq, Eq)]
pub enum Seen {
    /// There is no such file or folder.
    Missing,
    /// The permission is missing.
    Denied,
    /// Nobody listens at the address.
    Refused,
    /// The address is in use.
    InUse,
    /// The machine has no such address.
    NotLocal,
    /// The network doesn't reach the address.
    Unreachable,
    /// There is no such host.
    NoHost,
    /// No reply came in time.
    TimedOut,
    /// The path is a folder's.
    Folder,
    /// The path is no folder's.
    NoFolder,
    /// The path is neither a folder's nor a regular file's.
    Special,
    /// The name is too long.
    LongName,
    /// The file has more bytes than are read.
    Large,
    /// Somebody listens at the address.
    Listening,
    /// The same, of one who may have done what was asked for.
    Unanswering,
    /// The address is free.
    Free,
    /// The file can be opened.
    Readable,
    /// The file can be opened, and lines be added to it.
    Writable,
    /// There is no such file, and none was made.
    Unmade,
    /// Something else is wrong.
    Other,
}

impl Aim {
    // What a second look finds if nothing is wrong.
    fn wanted(&self) -> Seen
        ensures { result ≡ wanted_of self.now }
    {
        match self {
            Aim::Connect => Seen::Listening,
            Aim::Post => Seen::Unanswering,
            Aim::Bind => Seen::Free,
            Aim::Read => Seen::Readable,
            Aim::Append => Seen::Writable,
            Aim::Enter => Seen::Folder,
        }
    }
}

impl Seen {
    // rule: Second look
    fn words(&self) -> &'static str
        ensures { result.now ≡ seen_string self.now }
    {
        match self {
            Seen::Missing => "there is no such file or folder",
            Seen::Denied => "permission is denied",
            Seen::Refused => "nobody listens there: is the server running?",
            Seen::InUse => "the address is in use",
            Seen::NotLocal => "this machine has no such address",
            Seen::Unreachable => "the network doesn't reach it",
            Seen::NoHost => "no such host is known",
            Seen::TimedOut => "no reply came in time",
            Seen::Folder => "it is a folder",
            Seen::NoFolder => "it is no folder",
            Seen::Special => "it is no regular file",
            Seen::LongName => "its name is too long",
            Seen::Large => "it has more than 268435456 bytes",
            Seen::Listening =>
                "somebody listens there: is it the operator's listener of an omaha server?",
            Seen::Unanswering =>
                "somebody listens there, but no whole reply came: it may have taken effect, omaha status shows",
            Seen::Free => "the address is free now: try again",
            Seen::Readable => "it is a file that can be read; a script has at most 262144 bytes",
            Seen::Writable => "it can be written now: try again",
            Seen::Unmade => "there is no such file, and none can be made there: look at its folder",
            Seen::Other => "it can't be used",
        }
    }
}

/// Writes what is said of it.
impl fmt::Display for Seen {
    ghost output = { λ seen. Some (seen_string seen) };

    fn fmt<W: fmt::Write>(&self, f: &mut fmt::Formatter<W>) -> fmt::Result {
        f.write_str(self.words())
    }
}

/// What can look a second time at an address or a file: a runtime with a network and files, or a test's stand-in for one.
pub trait Looks {
    ghost use Rattle.advice.specs.Looks.{Sights};

    // what may be seen, by what is tried, at an address or a path
    ghost sights: { Self → Sights };

    /// Tries once more what failed, at an address, `HOST:PORT` or `unix:PATH`, or a path, and says what it finds. A
    /// connection gets two seconds, and is closed at once; nothing is written, and no file is made.
    fn look(&self, aim: Aim, at: &str) -> Seen
        ensures { sights self.now aim at.now result };
}

// How many bytes a file may have.
const MAX_FILE: u64 = 268435456;

// How many seconds a connection may take.
const SECONDS: u64 = 2;

// What the kind of an error says.
fn seen_of(kind: ErrorKind) -> Seen {
    match kind {
        ErrorKind::NotFound => Seen::Missing,
        ErrorKind::NotADirectory => Seen::Missing,
        ErrorKind::PermissionDenied => Seen::Denied,
        ErrorKind::ConnectionRefused => Seen::Refused,
        ErrorKind::ConnectionReset => Seen::Refused,
        ErrorKind::AddrInUse => Seen::InUse,
        ErrorKind::AddrNotAvailable => Seen::NotLocal,
        ErrorKind::HostUnreachable => Seen::Unreachable,
        ErrorKind::NetworkUnreachable => Seen::Unreachable,
        ErrorKind::TimedOut => Seen::TimedOut,
        ErrorKind::InvalidFilename => Seen::LongName,
        _ => Seen::Other,
    }
}

fn connect_path<R: Net>(rt: &R, path: &str) -> Seen {
    match UnixStream::connect(rt, path) {
        Ok(_) => Seen::Listening,
        Err(error) => seen_of(error.kind()),
    }
}

fn connect_host<R: Net<Listener = TcpListener, Stream = TcpStream>>(rt: &R, address: &str) -> Seen {
    let Ok(mut hosts) = address.to_socket_addrs(rt) else {
        return Seen::NoHost;
    };
    let Some(host) = hosts.next() else {
        return Seen::NoHost;
    };
    match TcpStream::connect_timeout(rt, &host, Duration::from_secs(SECONDS)) {
        Ok(_) => Seen::Listening,
        Err(error) => seen_of(error.kind()),
    }
}

fn connect<R: Net<Listener = TcpListener, Stream = TcpStream>>(rt: &R, address: &str) -> Seen {
    match address.strip_prefix("unix:") {
        Some(path) => connect_path(rt, path),
        None => connect_host(rt, address),
    }
}

// What is seen of an address to which something was posted.
fn post<R: Net<Listener = TcpListener, Stream = TcpStream>>(rt: &R, address: &str) -> Seen {
    match connect(rt, address) {
        Seen::Listening => Seen::Unanswering,
        seen => seen,
    }
}

// What is seen of a file that isn't there and couldn't be made.
fn unmade(seen: Seen) -> Seen {
    match seen {
        Seen::Missing => Seen::Unmade,
        seen => seen,
    }
}

fn bind_path<R: Files>(rt: &R, path: &str) -> Seen {
    match rt.metadata(path) {
        Ok(_) => Seen::InUse,
        Err(error) => unmade(seen_of(error.kind())),
    }
}

fn bind_host<R: Net<Listener = TcpListener, Stream = TcpStream>>(rt: &R, address: &str) -> Seen {
    let Ok(_) = address.to_socket_addrs(rt) else {
        return Seen::NoHost;
    };
    match TcpListener::bind(rt, address) {
        Ok(_) => Seen::Free,
        Err(error) => seen_of(error.kind()),
    }
}

fn bind<R: Net<Listener = TcpListener, Stream = TcpStream> + Files>(rt: &R, address: &str) -> Seen {
    match address.strip_prefix("unix:") {
        Some(path) => bind_path(rt, path),
        None => bind_host(rt, address),
    }
}

// Opens a regular file of so many bytes.
fn open<R: Files>(rt: &R, path: &str, length: u64) -> Seen {
    match fs::open(rt, path) {
        Ok(_) if MAX_FILE < length => Seen::Large,
        Ok(_) => Seen::Readable,
        Err(error) => seen_of(error.kind()),
    }
}

fn read<R: Files>(rt: &R, path: &str) -> Seen {
    match rt.metadata(path) {
        Ok(found) if found.is_dir() => Seen::Folder,
        Ok(found) if found.is_file() => open(rt, path, found.len()),
        Ok(_) => Seen::Special,
        Err(error) => seen_of(error.kind()),
    }
}

// Opens a regular file for lines at its end.
fn open_end<R: Files>(rt: &R, path: &str) -> Seen {
    let mut options = OpenOptions::new();
    options.append(true);
    match options.open(rt, path) {
        Ok(_) => Seen::Writable,
        Err(error) => seen_of(error.kind()),
    }
}

fn append<R: Files>(rt: &R, path: &str) -> Seen {
    match rt.metadata(path) {
        Ok(found) if found.is_dir() => Seen::Folder,
        Ok(found) if found.is_file() => open_end(rt, path),
        Ok(_) => Seen::Special,
        Err(error) => unmade(seen_of(error.kind())),
    }
}

fn enter<R: Files>(rt: &R, path: &str) -> Seen {
    match rt.metadata(path) {
        Ok(found) if found.is_dir() => Seen::Folder,
        Ok(_) => Seen::NoFolder,
        Err(error) => seen_of(error.kind()),
    }
}

impl<R: Net<Listener = TcpListener, Stream = TcpStream> + Files> Looks for R {
    ghost use Rattle.std.specs.Prelude.{⊤};

    ghost sights = { λ _ _ _ _. ⊤ };

    fn look(&self, aim: Aim, at: &str) -> Seen {
        match aim {
            Aim::Connect => connect(self, at),
            Aim::Post => post(self, at),
            Aim::Bind => bind(self, at),
            Aim::Read => read(self, at),
            Aim::Append => append(self, at),
            Aim::Enter => enter(self, at),
        }
    }
}

// Says something of a string from outside, and which word explains it.
fn say<D: fmt::Display>(
    alloc: Global,
    what: &str,
    said: &D,
    word: &str,
) -> Result<String, AllocError>
    ensures { IfSome (D.output said.now) (λ text. IfOk result (λ line. string_bytes line ≡ look_string what.now text word.now)) }
{
    let what = Shown { string: what };
    format!(in alloc; "{what}: {said} (omaha explain {word})")
}

/// Says what a second look finds.
pub(crate) fn look_again<R: Looks>(
    rt: &R,
    alloc: Global,
    aim: Aim,
    what: &str,
    word: &str,
) -> Option<String>
    ensures { IfSome result (λ said. IsLook (R.sights rt.now) aim what.now word.now (string_bytes said)) }
{
    say(alloc, what, &rt.look(aim, what), word).ok()
}

// rule: Advice on an address
/// Says what is wrong with an address, which a server may have been given twice, else what a second look finds there.
pub(crate) fn address_advice<R: Looks>(
    rt: &R,
    alloc: Global,
    aim: Aim,
    address: &str,
    is_twice: bool,
) -> Option<String>
    ensures { IfSome result (λ said. IsAddressAdvice (R.sights rt.now) aim address.now is_twice (string_bytes said)) }
{
    match given_fault(address, is_twice) {
        Some(fault) => say(alloc, address, &fault, "net").ok(),
        None => look_again(rt, alloc, aim, address, "net"),
    }
}

/// Says what a second look finds, unless nothing is wrong there.
pub(crate) fn odd_look<R: Looks>(
    rt: &R,
    alloc: Global,
    aim: Aim,
    what: &str,
    word: &str,
) -> Option<String>
    ensures { IfSome result (λ said. IsOddLook (R.sights rt.now) aim what.now word.now (string_bytes said)) }
{
    let seen = rt.look(aim, what);
    if seen == aim.wanted() {
        None
    } else {
        say(alloc, what, &seen, word).ok()
    }
}

/// Says what is wrong with the address of a server that didn't reply to a walk, else what a second look finds there, unless
/// somebody listens.
pub(crate) fn server_advice<R: Looks>(rt: &R, alloc: Global, address: &str) -> Option<String>
    ensures { IfSome result (λ said. IsServerAdvice (R.sights rt.now) address.now (string_bytes said)) }
{
    match given_fault(address, false) {
        Some(fault) => say(alloc, address, &fault, "U1").ok(),
        None => odd_look(rt, alloc, Aim::Connect, address, "U1"),
    }
}
