// The start of a server: its ports, and the line that says that it listens.

ghost use Rattle.std.specs.Prelude.{◌≡◌, ◌⊎◌, ℕ, All, IfErr, IfOk, IfSome, OnErr, OnOk, length, map, option_map};
ghost use Rattle.std.specs.Io.KnownBytes.{Appends};
ghost use Rattle.streams.specs.Writing.{Breaks};
ghost use Rattle.server_ports.specs.Opening.{AreClientTerms, IsOperatorsPort, clients_listener, operator_terms, ready_line};
ghost use Rattle.systems.specs.Capacities.{IsCapacity};
ghost use Rattle.systems.specs.NewPorts.{IsNew};
ghost use Rattle.server_ports.specs.Places.{ArePorts};
ghost use Rattle.server_ports.specs.Errors.{IsLater};
ghost use Rattle.server_ports.specs.Starts.{IsListening, IsOpen, IsReady, Stops};
ghost use Rattle.server_ports.specs.declared.error.ServerError.TheVariants.{Memory, Net, OperatorNet};

use crate::ending::OPERATOR;
use crate::error::ServerError;
use crate::place::Place;
use crate::terms::all_terms;
use http_ports::{Port, Terms};
use std::alloc::Global;
use std::io;
use streams::WriteWhole;
use systems::{OpenError, System};

// How many connections of the operator may be open at once.
const CONNECTIONS: usize = 32;

/// The ports of a server, before they are served.
#[derive(Drop)]
pub struct Ports<P> {
    /// One for each worker.
    pub clients: Vec<P>,
    /// The operator's, if there is an operator.
    pub operator: Option<P>,
}

// Binds the clients' address, and opens a port for each worker.
fn open_clients<P: Port + Drop, S: System<P>>(
    alloc: Global,
    system: &S,
    place: &Place,
) -> Result<Vec<P>, ServerError>
    ensures many { IfOk result (λ ports. length ports.items ≡ place.now.workers) }
    ensures terms { IfOk result (λ ports. (capacity : ℕ)
        × IsCapacity (S.edges system.now) place.now.connections place.now.workers capacity
        × AreClientTerms place.now capacity (map P.terms ports.items)) }
    ensures new { IfOk result (λ ports. All (IsNew P.terms P.slots P.accepted P.is_over) ports.items) }
    ensures bound { IfOk result (λ _. (S.edges system.now).listens place.now.address clients_listener) }
    ensures err { IfErr result (λ error. (error ≡ Net) ⊎ (error ≡ Memory)) }
{
    let capacity = system.capacity(place.connections, place.workers);
    let terms = all_terms(alloc, place, capacity)?;
    match system.open_ports(place.address.as_str(), &terms) {
        Ok(ports) => Ok(ports),
        Err(OpenError::Net) => Err(ServerError::Net),
        Err(OpenError::Memory) => Err(ServerError::Memory),
    }
}

// What the operator's port serves by.
fn operator_terms(place: &Place) -> Terms
    ensures { result ≡ operator_terms place.now }
{
    Terms {
        listener: OPERATOR,
        capacity: CONNECTIONS,
        limit: place.edits.unwrap_or(u64::MAX),
        message: place.seconds,
        idle: place.idle,
    }
}

// Binds the operator's address, and opens a port, if there is to be one.
fn open_operator<P: Port + Drop, S: System<P>>(
    system: &S,
    place: &Place,
) -> Result<Option<P>, ServerError>
    ensures port { IfOk result (λ port. IsOperatorsPort place.now (option_map P.terms port)) }
    ensures new { IfOk result (λ port. IfSome port (IsNew P.terms P.slots P.accepted P.is_over)) }
    ensures bound { IfOk result (λ _. IsListening (S.edges system.now) place.now.operator) }
    ensures err { IfErr result (λ error. (error ≡ OperatorNet) ⊎ (error ≡ Memory)) }
{
    let Some(address) = &place.operator else {
        return Ok(None);
    };
    match system.open_ports(address.as_str(), &[operator_terms(place)]) {
        Ok(ports) => {
            let mut ports = ports;
            match ports.pop() {
                Some(port) => Ok(Some(port)),
                None => unreachable!(),
            }
        }
        Err(OpenError::Net) => Err(ServerError::OperatorNet),
        Err(OpenError::Memory) => Err(ServerError::Memory),
    }
}

// rule: Start of a server
// Prints that the server listens. Fails if the writer does; a first part of the line may be written, and not all of it.
fn print_ready<O: WriteWhole>(out: &mut O) -> io::Result<()>
    ensures ok { OnOk result (Appends (O.output out.old).bytes (O.output out.new).bytes ready_line) }
    ensures err { OnErr result (Breaks (O.output out.old) (O.output out.new) ready_line) }
{
    out.write_whole(b"ready\n")
}

/// Binds the addresses of a place whose folder was found, opens a new port for each worker and one for the operator, if there
/// is an operator, and prints `ready`.
///
/// Fails with memory, the clients' address, the operator's, or the output. If an address can't be bound, nothing was printed;
/// if the output fails, a first part of the line may be.
pub fn open_place<P: Port + Drop, S: System<P>, O: WriteWhole>(
    alloc: Global,
    system: &S,
    place: &Place,
    out: &mut O,
) -> Result<Ports<P>, ServerError>
    requires { (S.edges system.now).folders place.now.packages }
    ensures opened { IfOk result (λ _. IsOpen (S.edges system.now) place.now) }
    ensures ports { IfOk result (ArePorts (S.edges system.now) P.terms P.slots P.accepted P.is_over place.now) }
    ensures ready { IfOk result (λ _. IsReady (O.output out.old) (O.output out.new)) }
    ensures err { IfErr result (λ error. IsLater error
        × Stops (S.edges system.now) place.now (O.output out.old) (O.output out.new) error) }
{
    let clients = open_clients(alloc, system, place)?;
    let operator = open_operator(system, place)?;
    match print_ready(out) {
        Ok(()) => Ok(Ports { clients, operator }),
        Err(_) => Err(ServerError::Write),
    }
}
