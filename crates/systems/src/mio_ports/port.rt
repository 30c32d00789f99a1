ghost use Rattle.std.specs.Prelude.{◌≡◌, ◌≤◌, ℕ, [], IfSome, vec_len};
ghost use Rattle.http_ports.specs.Books.{accepted_in};

use crate::mio_ports::door::Door;
use crate::mio_ports::drained::DrainedList;
use crate::mio_ports::lingering::LingeringList;
use crate::mio_ports::listener::Listener;
use crate::mio_ports::sign::EndSign;
use crate::mio_ports::times::Times;
use crate::mio_ports::waiting_list::WaitingList;
use http_ports::{Book, Terms};
use mio::net::TcpStream;
use mio::unix::SourceFd;
use mio::{Events, Interest, Poll, Token};
use std::alloc::{AllocError, Global};
use std::net::{IpAddr, Net, SocketAddr};
use std::sync::{Arc, Wait};
use std::time::{Clock, Instant};

// The token of the listener, which no slot has.
pub(crate) const LISTENER: usize = 1 << 40;

// The number of the clients' listener.
pub(crate) const CLIENTS: u64 = 0;

// How many events the system reports at a time.
pub(crate) const EVENTS: usize = 256;

/// What is kept of each slot beside the book.
pub(crate) struct SlotLists {
    // the slots that are to be reported, and those without a connection
    pub(crate) ready: WaitingList,
    pub(crate) free: WaitingList,
    // the address of each slot's peer
    pub(crate) peers: Vec<Option<IpAddr>>,
    // how long connections have waited
    pub(crate) times: Times,
    // the slots at which nothing is to be read
    pub(crate) drained: DrainedList,
}

// Written out, so that no caller proves again how each part is dropped.
impl Drop for SlotLists {
    fn drop(self) {
        let SlotLists {
            ready: _,
            free: _,
            peers: _,
            times: _,
            drained: _,
        } = self;
    }
}

/// A port over a listener, which other ports may share, and the sockets that it accepted.
pub struct MioPort<'a, R: Wait> {
    pub(crate) rt: &'a R,
    pub(crate) door: Door<'a>,
    pub(crate) poll: Poll,
    pub(crate) events: Events,
    // what is kept of each slot, and what has passed there
    pub(crate) book: Book<TcpStream>,
    pub(crate) lists: SlotLists,
    // how many of the slots that are ready are reported before the system is asked again
    pub(crate) turns: usize,
    // what it serves by, and how many connections were accepted
    pub(crate) terms: Terms,
    pub(crate) accepted: u64,
    // the time that the waits of connections are counted from
    pub(crate) start: Instant,
    // whether the slots are to be looked at for late connections, and the first one that isn't yet
    pub(crate) is_due: bool,
    pub(crate) looked: usize,
    pub(crate) lingering: LingeringList,
    ghost few: { accepted ≤ terms.limit },
    ghost sized: { vec_len book.places ≡ terms.capacity },
    ghost counted: { accepted ≡ accepted_in book.moves },
}

// Written out, so that no caller proves again how each part is dropped.
impl<R: Wait> Drop for MioPort<'_, R> {
    fn drop(self) {
        let MioPort {
            rt: _,
            door: _,
            poll: _,
            events: _,
            book: _,
            lists: _,
            turns: _,
            terms: _,
            accepted: _,
            start: _,
            is_due: _,
            looked: _,
            lingering: _,
        } = self;
    }
}

// A list of all slots.
fn all_slots(alloc: Global, slots: usize) -> Result<WaitingList, AllocError> {
    let mut free = WaitingList::new(alloc, slots)?;
    for slot in 0..slots {
        free.push(slot);
    }
    Ok(free)
}

// So many addresses, none of which is known.
fn addresses(alloc: Global, slots: usize) -> Result<Vec<Option<IpAddr>>, AllocError> {
    vec![in alloc; None; slots]
}

impl SlotLists {
    // So many slots, all without a connection.
    fn new(alloc: Global, slots: usize) -> Option<SlotLists> {
        let ready = WaitingList::new(alloc, slots).ok()?;
        let free = all_slots(alloc, slots).ok()?;
        let peers = addresses(alloc, slots).ok()?;
        let times = Times::new(alloc, slots).ok()?;
        let drained = DrainedList::new(alloc, slots).ok()?;
        Some(SlotLists {
            ready,
            free,
            peers,
            times,
            drained,
        })
    }
}

impl<'a, R: Wait> MioPort<'a, R> {
    /// Returns the address that its connections come to, unless that is a path, or the port has let its listener go.
    pub fn local_address(&self) -> Option<SocketAddr> {
        self.door.local_address()
    }
}

impl<'a, R: Wait + Net + Clock + AllocGlobal> MioPort<'a, R> {
    /// Makes the port of a listener that doesn't block, by these terms. Without a slot it accepts no connection.
    ///
    /// A connection that waits for longer than the terms say is late. If there is no free slot for one more, that which
    /// has been idle for longest is late at once; it is idle if its last reply is sent, or it has sent no byte for a
    /// second. If none is idle, a listener other than the clients', 0, has that late which has waited for longest, and for
    /// a second. Once the sign asks it to end, it accepts no more after a second or less, and a connection is late once it
    /// waits for the first byte of a message. Returns `None` if memory runs out, or the system can't watch the listener.
    pub fn new(
        rt: &'a R,
        listener: Arc<Listener, Global>,
        sign: &'a EndSign,
        terms: Terms,
    ) -> Option<MioPort<'a, R>>
        ensures fresh { IfSome result (λ port. port.book.moves ≡ []) }
        ensures terms { IfSome result (λ port. port.terms ≡ terms) }
    {
        let alloc = rt.alloc();
        let slots = terms.capacity;
        let book = Book::new(alloc, slots).ok()?;
        let lists = SlotLists::new(alloc, slots)?;
        let lingering = LingeringList::new(alloc).ok()?;
        let events = Events::with_capacity(alloc, EVENTS).ok()?;
        let poll = Poll::new(rt).ok()?;
        let start = Instant::now(rt).ok()?;
        let fd = listener.raw_fd();
        poll.registry()
            .register(&mut SourceFd(&fd), Token(LISTENER), Interest::READABLE)
            .ok()?;
        Some(MioPort {
            rt,
            door: Door::new(listener, sign),
            poll,
            events,
            book,
            lists,
            turns: 0,
            terms,
            accepted: 0,
            start,
            is_due: false,
            looked: slots,
            lingering,
        })
    }
}
