// What the ports of a server are served with.

ghost use Rattle.std.specs.Prelude.{◌≡◌};
ghost use Rattle.access_logs.specs.Logs.{IsLogOf};
ghost use Rattle.rtrb.specs.Ring.{SameProducer};
ghost use Rattle.server_ports.specs.Logging.{HasSent};
ghost use Rattle.server_ports.specs.Passages.{passage_of};
ghost use Rattle.server_ports.specs.Served.{IsServedPort};

use crate::ending::Ending;
use crate::new_port::NewPort;
use crate::new_sender::NewSender;
use crate::notes::Notes;
use crate::place::Place;
use crate::ports::ServedPort;
use crate::traffic::Traffic;
use crate::watches::Watches;
use access_logs::{EndedSender, LoggedPort};
use http_desks::{Clock, Desk};
use http_devices::SystemClock;
use http_ports::Port;
use std::alloc::Global;
use std::marker::PhantomData;
use std::sync::{Mutex, Wait};
use std::time;
use systems::System;
use tallies::Tally;

/// What the ports of a server are served with.
#[derive(Drop)]
pub struct Setup<'a, S, R> {
    /// What opens ports, and has packages and logs.
    pub system: &'a S,
    /// What starts threads, waits for locks, gives the time and has the memory of replies.
    pub rt: &'a R,
    /// The place.
    pub place: &'a Place,
    /// What the server says of itself, if the place has a name.
    pub notes: &'a Mutex<Notes>,
    /// Whether the server was asked to end.
    pub ending: &'a Ending,
    /// What the server has served so far.
    pub traffic: &'a Traffic,
}

impl<'a, S, R> Setup<'a, S, R> {
    /// Borrows the runtime for as long as the setup does.
    pub fn runtime(&self) -> &'a R {
        self.rt
    }
}

/// How many seconds have passed since 1970.
pub fn seconds_now<R: time::Clock>(rt: &R) -> u64 {
    SystemClock::new(rt).now()
}

/// What a port came to that was served, and the end of its sender to the log, if it had one.
pub struct Served<P> {
    /// The port.
    pub port: ServedPort<P>,
    /// Its sender.
    pub log: Option<EndedSender>,
}

// Written out, so that no caller proves again how each part is dropped.
impl<P: Drop> Drop for Served<P> {
    fn drop(self) {
        let Served { port: _, log: _ } = self;
    }
}

impl<P> Served<P> {
    /// Gives both.
    pub fn into_parts(self) -> (ServedPort<P>, Option<EndedSender>)
        ensures port { result.0 ≡ self.port }
        ensures log { result.1 ≡ self.log }
    {
        let Served { port, log } = self;
        (port, log)
    }
}

// Serves a port whose replies aren't logged.
fn serve_unlogged<P: Port + Drop, S: System<P>, R: Wait + AllocGlobal, D: Desk>(
    setup: &Setup<'_, S, R>,
    port: NewPort<P>,
    desk: &mut D,
    watches: &Watches<'_, '_, '_, S, R, P>,
) -> ServedPort<P>
    ensures { IsServedPort (S.edges setup.now.system.now) setup.now.place.now (D.path desk.old) (D.content_type desk.old) D.steps
        desk.old desk.new (P.terms port) (passage_of P.terms P.slots P.accepted result) }
{
    let (system, folder) = (setup.system, setup.place.packages.as_str());
    let (port, room, _) = port.into_parts();
    let mut port = port;
    let lost = system.serve_port(folder, &mut port, room, desk, watches);
    ServedPort { port, lost }
}

// Serves a port, and sends a line for each reply.
fn serve_logged<P: Port + Drop, S: System<P>, R: time::Clock + Wait + AllocGlobal, D: Desk>(
    setup: &Setup<'_, S, R>,
    port: NewPort<P>,
    desk: &mut D,
    lines: NewSender,
    watches: &Watches<'_, '_, '_, S, R, P>,
) -> (ServedPort<P>, EndedSender)
    ensures served { IsServedPort (S.edges setup.now.system.now) setup.now.place.now (D.path desk.old) (D.content_type desk.old) D.steps
        desk.old desk.new (P.terms port) (passage_of P.terms P.slots P.accepted result.0) }
    ensures log { IsLogOf (P.slots result.0.port) result.1.sent }
    ensures ring { SameProducer lines.end result.1.end }
{
    let clock = SystemClock::new(setup.rt);
    let (port, room, places) = port.into_parts();
    let mut port = LoggedPort::new(setup.rt.alloc(), port, lines.into_lines(), places, &clock);
    let folder = setup.place.packages.as_str();
    let lost = setup
        .system
        .serve_port(folder, &mut port, room, desk, watches);
    let (port, ended) = port.into_parts();
    (ServedPort { port, lost }, ended)
}

// rule: Log of a server
/// Serves a new port by a desk until it ends, with the packages of the place's folder, sends a line for each reply, if there
/// is a sender to the log, and counts what is served in a tally, if there is one. Returns the port with how many connections
/// it lost, and the end of the sender, which has sent the lines of the port's replies.
pub fn serve_new<P: Port + Drop, S: System<P>, R: time::Clock + Wait + AllocGlobal, D: Desk>(
    setup: &Setup<'_, S, R>,
    port: NewPort<P>,
    desk: &mut D,
    lines: Option<NewSender>,
    tally: Option<&Tally>,
) -> Served<P>
    ensures served { IsServedPort (S.edges setup.now.system.now) setup.now.place.now (D.path desk.old) (D.content_type desk.old) D.steps
        desk.old desk.new (P.terms port) (passage_of P.terms P.slots P.accepted result.port) }
    ensures log { HasSent (P.slots result.port.port) lines result.log }
{
    let watches = Watches {
        setup,
        tally,
        ports: PhantomData,
    };
    match lines {
        None => Served {
            port: serve_unlogged(setup, port, desk, &watches),
            log: None,
        },
        Some(lines) => {
            let (port, ended) = serve_logged(setup, port, desk, lines, &watches);
            Served {
                port,
                log: Some(ended),
            }
        }
    }
}
