// What a server asks of the system.

ghost use Rattle.std.specs.Prelude.{◌≡◌, All, IfOk, IsTrue, ℕ, map};
ghost use Rattle.http_desks.specs.Uses.{IsUse};
ghost use Rattle.http_ports.specs.Traffic.{IsTime, unused};
ghost use Rattle.http_sessions.specs.Ports.{HasTalked};
ghost use Rattle.systems.specs.NewPorts.{IsNew};

use http_desks::Desk;
use http_ports::{Port, Terms, WatchEach};
use http_sessions::Connections;
use std::alloc::{AllocError, Global};
use std::fs::File;
use std::io;

/// Why ports could not be opened.
#[derive(Clone, Copy, Drop)]
pub enum OpenError {
    /// The address could not be bound.
    Net,
    /// Memory ran out.
    Memory,
}

impl From<AllocError> for OpenError {
    ghost use Rattle.std.specs.Prelude.{◌≡◌};
    ghost use Rattle.systems.specs.declared.system.OpenError.TheVariants.{Memory};

    ghost from_gives = { λ _ error. error ≡ Memory };

    fn from(_refused: AllocError) -> OpenError {
        OpenError::Memory
    }
}

/// What a server asks of the system, which has its ports: sockets, or a test's room-in for them.
pub trait System<P: Port> {
    ghost use Rattle.systems.specs.Capacities.{IsCapacity};
    ghost use Rattle.systems.specs.Edges.{Edges};

    // what is known of connections, addresses, folders and logs
    ghost edges: { Self → Edges };

    /// Returns how many connections each of so many ports may hold, of so many in all: fewer if the system allows fewer, and
    /// at least one.
    fn capacity(&self, connections: u64, ports: usize) -> usize
        ensures { IsCapacity (edges self.now) connections ports result };

    // rule: Ports of a server
    /// Binds an address, and opens a port for each of these terms, whose connections are those of the address.
    ///
    /// It is `HOST:PORT` with an IPv6 address in brackets, or `unix:PATH`. A socket is made at such a path, which its
    /// owner and its group may connect to. It replaces one that nobody listens to, and no other file.
    fn open_ports(&self, address: &str, terms: &[Terms]) -> Result<Vec<P>, OpenError>
        ensures terms { IfOk result (λ ports. map P.terms ports.items ≡ terms.now) }
        ensures bound { IfOk result (λ _. All (λ t. (edges self.now).listens address.now t.listener) terms.now) }
        ensures new { IfOk result (λ ports. All (IsNew P.terms P.slots P.accepted P.is_over) ports.items) };

    /// Writes the address of a port that was opened at this one, with the number that the system gave for port 0.
    fn address_of(&self, alloc: Global, port: &P, address: &str) -> Result<String, AllocError>;

    /// Has the ports of a listener's number end, within a second or so: they accept no more connections, end those that
    /// wait for the first byte of a message, and serve the others until their last reply is sent.
    fn end_ports(&self, _listener: u64) {}

    /// Lets go what an address has in the system once its ports are closed: the socket at a path, and no other file that is
    /// there by then.
    fn close_address(&self, _address: &str) {}

    /// Opens the file at a path for lines at its end, and makes it if there is none.
    ///
    /// Fails if it can't be opened, or is a pipe, which would wait for a reader.
    fn open_log(&self, path: &str) -> io::Result<File>
        ensures { IfOk result (λ _. (edges self.now).logs path.now) };

    /// Whether there is a folder at a path, which may be empty.
    fn has_folder(&self, path: &str) -> bool
        ensures { IsTrue result → (edges self.now).folders path.now };

    /// Returns the size of the file of a name in the folder at a path, or `None` if there is no regular one that can be
    /// opened.
    fn package_size(&self, folder: &str, name: &[u8]) -> Option<u64>
        ensures { (edges self.now).sizes folder.now name.now result };

    // rule: Sessions of a port
    /// Serves the connections of a new port by a desk, with the packages of the folder at a path, until none will be
    /// accepted any more; returns for how many memory ran out.
    fn serve_port<'f, Q: Port, D: Desk, V: WatchEach>(
        &'f self,
        folder: &'f str,
        port: &mut Q,
        room: Connections<V::Seen>,
        desk: &mut D,
        watch: &V,
    ) -> u64
        requires fresh { (k : ℕ) → Q.slots port.old k ≡ unused }
        requires none { Q.accepted port.old ≡ 0 }
        requires many { room ≡ (Q.terms port.old).capacity }
        ensures served { HasTalked (IsUse (D.path desk.old) IsTime ((edges self.now).sizes folder.now) ((edges self.now).reads folder.now))
            (D.content_type desk.old) D.steps desk.old desk.new
            (record { terms = Q.terms port.new; slots = Q.slots port.new; accepted = Q.accepted port.new; lost = result }) }
        ensures over { Q.is_over port.new }
        ensures terms { Q.terms port.new ≡ Q.terms port.old }
        ensures own { Q.own port.new ≡ Q.own port.old };
}
