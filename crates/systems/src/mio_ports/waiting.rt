// The port over sockets.

ghost use Rattle.std.specs.Prelude.{◌≡◌};

use crate::mio_ports::passing::{note_read, note_write, read_stream, write_stream};
use crate::mio_ports::port::{EVENTS, LISTENER, MioPort};
use http_desks::Clock as _;
use http_devices::SystemClock;
use http_ports::{Change, Event, Last, Port, Received, Sent, Terms};
use std::net::IpAddr;
use std::sync::Wait;
use std::time::{Clock, Duration};

impl<R: Wait + Clock> MioPort<'_, R> {
    // Notes the time: once a second each connection is to be looked at, and the listener too if it failed.
    fn note_time(&mut self)
        ensures book { self.new.book ≡ self.old.book }
        ensures terms { self.new.terms ≡ self.old.terms }
    {
        let now = self.present();
        let is_later = now / 1000 != self.lists.times.present / 1000;
        self.lists.times.present = now;
        if is_later {
            self.is_due = true;
            self.door.retry();
        }
    }

    // How many milliseconds the sockets are waited for: none if there is something to do without them, and few if the
    // port is to end, ends once no connection lingers, or has no slot for a connection that waits.
    fn pause(&self) -> u64 {
        let accepts = self.may_accept() && self.lists.free.len() > 0;
        let lingers = !self.lingering.is_empty() && self.accepted == self.terms.limit;
        if accepts || self.lists.ready.len() > 0 {
            0
        } else if self.door.is_ending || lingers {
            10
        } else if self.is_crowded() {
            100
        } else {
            1000
        }
    }

    // Looks whether the port is asked to end: then each connection is to be looked at, and its listener may be let go.
    fn note_sign(&mut self)
        ensures book { self.new.book ≡ self.old.book }
        ensures terms { self.new.terms ≡ self.old.terms }
    {
        self.door.look();
        self.is_due |= self.door.is_ending;
    }

    // Waits for the sockets, and gives each slot that is ready its turn.
    fn wait_for_sockets(&mut self)
        ensures book { self.new.book ≡ self.old.book }
        ensures terms { self.new.terms ≡ self.old.terms }
    {
        let pause = Duration::from_millis(self.pause());
        self.door.listen();
        let _ = self.poll.poll(&mut self.events, Some(pause));
        let mut room = EVENTS;
        for event in self.events.iter() {
            room = room.saturating_sub(1);
            let token = usize::from(event.token());
            if token == LISTENER {
                self.door.knock();
            } else {
                self.lists.ready.push(token);
                self.lists.drained.reported(token, event.is_read_closed());
            }
        }
        self.turns = self.lists.ready.len();
        self.note_time();
        self.note_sign();
        // with no room left the system may have more to report, of a connection that would be late
        if self.is_due && room > 0 {
            self.is_due = false;
            self.looked = 0;
        }
        let now = self.lists.times.present;
        self.lingering.drop_inputs(now);
    }
}

impl<R: Wait + Clock> Port for MioPort<'_, R> {
    ghost use Rattle.std.specs.Prelude.{◌≡◌, ◌⊎◌, None, true};
    ghost use Rattle.http_ports.specs.Books.{accepted_in, slots_after};

    type Own = ();

    ghost slots = { λ port. slots_after port.book.moves };

    ghost terms = { λ port. port.terms };

    // it never stops
    ghost stopped = { λ _. None };

    // it has nothing of its own
    ghost own = { λ _. tt };

    ghost accepted = { λ port. accepted_in port.book.moves };

    // so many connections were accepted, or it is to end
    ghost is_over = { λ port. (accepted_in port.book.moves ≡ port.terms.limit) ⊎ (port.door.is_ending ≡ true) };

    fn peer(&self, slot: usize) -> Option<IpAddr> {
        *self.lists.peers.get(slot)?
    }

    fn terms(&self) -> Terms {
        self.terms
    }

    fn has_accepted_all(&self) -> bool {
        self.accepted == self.terms.limit
    }

    fn wait(&mut self) -> Event {
        for _ in self.rt.forever() {
            if let Some(event) = self.report() {
                return event;
            }
            if self.is_done() {
                return Event::Done;
            }
            self.wait_for_sockets();
        }
        unreachable!()
    }

    fn timestamp(&mut self, slot: usize, waiting: Option<&[u8]>) -> u64 {
        let seconds = SystemClock::new(self.rt).now();
        self.book.note_time(slot, seconds, waiting);
        seconds
    }

    fn read(&mut self, slot: usize, into: &mut [u8]) -> Received {
        let received = if self.lists.drained.has(slot) {
            Received::Nothing
        } else {
            read_stream(self.book.stream(slot), into)
        };
        note_read(&mut self.book, slot, into, received);
        if let Received::Bytes(count) = received {
            let now = self.present();
            self.lists.times.read(slot, now);
            if count < into.len() {
                self.lists.drained.read(slot);
            }
        }
        received
    }

    fn write(&mut self, slot: usize, bytes: &[u8]) -> Sent {
        let sent = write_stream(self.book.stream(slot), bytes);
        note_write(&mut self.book, slot, bytes, sent);
        let now = self.present();
        match sent {
            Sent::Bytes(_) => self.lists.times.written(slot, now),
            Sent::Nothing => self.lists.times.held(slot, now),
            Sent::Failure => {}
        }
        sent
    }

    fn again(&mut self, slot: usize) {
        self.book.change(slot, Change::Marked(Last::Yields), false);
        self.lists.ready.push(slot);
    }

    fn close(&mut self, slot: usize) {
        if let Some(stream) = self.book.close(slot) {
            let now = self.lists.times.present;
            self.lingering.close(stream, now);
        }
        if let Some(address) = self.lists.peers.get_mut(slot) {
            *address = None;
        }
        self.lists.free.push(slot);
    }
}
