ghost use Rattle.std.specs.Prelude.{◌≡◌, ℕ};
ghost use Rattle.rtrb.specs.Ring.{SameProducer};
ghost use Rattle.http_ports.specs.Traffic.{unused};
ghost use Rattle.access_logs.specs.Logs.{IsFresh, IsLogOf};

use crate::places::Places;
use crate::port_log::PortLog;
use crate::queues::{EndedSender, LineSender};
use http_desks::Clock;
use http_ports::{Event, Port, Received, Sent, Terms};
use std::alloc::Global;
use std::marker::Model;
use std::net::IpAddr;
use std::snapshot::Snapshot;

/// A port whose replies are logged. What passes there is what passes at the port that it has.
///
/// Contracts see that port, and the sender of its log's lines as it was at first.
#[derive(Drop)]
pub struct LoggedPort<'c, P: Port, C: Clock> {
    /// The port.
    pub port: P,
    first: Snapshot<LineSender>,
    log: PortLog,
    clock: &'c C,
}

impl<'c, P: Port, C: Clock> Model for LoggedPort<'c, P, C> {
    ghost use Rattle.access_logs.specs.Tracks.{IsLogging, Logging};

    ghost Value = { Logging P };

    ghost view = { λ it. record { port = it.port; first = it.first.value } };

    ghost invariant = { λ it. IsLogging (P.slots it.port) (P.terms it.port).capacity it.first.value it.log };
}

impl<'c, P: Port, C: Clock> LoggedPort<'c, P, C> {
    /// Has a new port log its replies by a sender that has sent nothing, with a clock's times. There is a place for each
    /// of its slots.
    pub fn new(
        alloc: Global,
        port: P,
        lines: LineSender,
        places: Places,
        clock: &'c C,
    ) -> LoggedPort<'c, P, C>
        requires fresh { (k : ℕ) → P.slots port k ≡ unused }
        requires places { places ≡ (P.terms port).capacity }
        requires sender { IsFresh lines }
        ensures port { result.port ≡ port }
        ensures first { result.first ≡ lines }
    {
        let first = Snapshot::of(&lines);
        let log = PortLog::new(alloc, lines, places);
        LoggedPort {
            port,
            first,
            log,
            clock,
        }
    }

    // rule: Log of a port
    /// Gives the port, and ends the sender of its log's lines.
    pub fn into_parts(self) -> (P, EndedSender)
        ensures port { result.0 ≡ self.entry.port }
        ensures log { IsLogOf (P.slots result.0) result.1.sent }
        ensures ring { SameProducer self.entry.first.end result.1.end }
    {
        let LoggedPort { port, log, .. } = self;
        (port, log.lines.finish())
    }
}

// rule: Log of a port
impl<P: Port, C: Clock> Port for LoggedPort<'_, P, C> {
    type Own = LineSender;

    ghost slots = { λ port. P.slots port.port };

    ghost terms = { λ port. P.terms port.port };

    ghost stopped = { λ port. P.stopped port.port };

    ghost own = { λ port. port.first };

    ghost accepted = { λ port. P.accepted port.port };

    ghost is_over = { λ port. P.is_over port.port };

    fn peer(&self, slot: usize) -> Option<IpAddr> {
        self.port.peer(slot)
    }

    fn terms(&self) -> Terms {
        self.port.terms()
    }

    fn has_accepted_all(&self) -> bool {
        self.port.has_accepted_all()
    }

    fn wait(&mut self) -> Event {
        let event = self.port.wait();
        if let Event::Accepted(slot) = event {
            self.log.accept(slot, self.port.peer(slot));
        }
        event
    }

    fn timestamp(&mut self, slot: usize, waiting: Option<&[u8]>) -> u64 {
        let seconds = self.port.timestamp(slot, waiting);
        if let Some(bytes) = waiting {
            self.log.begin(slot, self.clock.now(), bytes);
        }
        seconds
    }

    fn read(&mut self, slot: usize, into: &mut [u8]) -> Received {
        self.port.read(slot, into)
    }

    fn write(&mut self, slot: usize, bytes: &[u8]) -> Sent {
        let sent = self.port.write(slot, bytes);
        if let Sent::Bytes(count) = sent {
            self.log.write(slot, &bytes[..count]);
        }
        sent
    }

    fn again(&mut self, slot: usize) {
        self.port.again(slot);
    }

    fn close(&mut self, slot: usize) {
        self.port.close(slot);
        self.log.end(slot, self.clock.now());
    }
}
