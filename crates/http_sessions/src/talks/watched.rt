ghost use Rattle.std.specs.Prelude.{◌≡◌, ◌++◌, ◌≤◌, ℕ, List, [], drop, length, take};

use crate::buffers::Buffers;
use crate::talks::talk::{Stage, Talk};
use crate::talks::talks::Talks;
use http_desks::{Desk, Packages};
use http_ports::{Next, Protocol, WatchEach};
use std::net::IpAddr;

/// A connection, and what a watch has seen of it.
#[derive(Drop)]
pub struct Watched<S: Drop> {
    pub(crate) talk: Talk,
    pub(crate) seen: S,
}

// Whether the session has ended, and all that was made of its replies is sent.
fn is_finished(talk: &Talk) -> bool {
    matches!(talk.stage, Stage::Over) && talk.sent == talk.made.len()
}

/// The sessions of a site, each of which a watch is shown.
#[derive(Drop)]
pub struct WatchedTalks<'a, 'w, Z, V> {
    /// The sessions.
    pub talks: Talks<'a, Z>,
    /// The watch.
    pub watch: &'w V,
}

impl<Z: Packages, V: WatchEach> Protocol for WatchedTalks<'_, '_, Z, V> {
    ghost use Rattle.http_desks.specs.Uses.{IsUse};
    ghost use Rattle.http_ports.specs.Traffic.{IsTime};
    ghost use Rattle.http_sessions.specs.Talks.{Said, is_lost, pending, phase_of, waiting_of};

    type Conn = Watched<V::Seen>;

    type Room = Buffers;

    ghost pending = { λ conn. pending conn.talk };

    ghost waiting = { λ conn. waiting_of conn.talk };

    ghost phase = { λ conn. phase_of conn.talk.stage };

    ghost is_lost = { λ conn. is_lost conn.talk.stage };

    ghost so_far = { λ watched path kind timestamps conn.
        Said (IsUse path IsTime (Z.sizes watched.talks.site.now) (Z.reads watched.talks.site.now)) kind timestamps conn.talk };

    fn open(&self, peer: Option<IpAddr>) -> Watched<V::Seen> {
        Watched {
            talk: self.talks.open(peer),
            seen: self.watch.opens(peer),
        }
    }

    fn pending<'c>(&self, conn: &'c Watched<V::Seen>) -> &'c [u8] {
        self.talks.pending(&conn.talk)
    }

    fn waiting<'c>(&self, conn: &'c Watched<V::Seen>) -> Option<&'c [u8]> {
        self.talks.waiting(&conn.talk)
    }

    fn end(&self, conn: Watched<V::Seen>) -> bool {
        let Watched { talk, seen } = conn;
        let mut seen = seen;
        if is_finished(&talk) {
            self.watch.finishes(&mut seen);
        }
        self.watch.ends(seen);
        self.talks.end(talk)
    }

    fn sent(&self, conn: &mut Watched<V::Seen>, count: usize) {
        let bytes = self.talks.pending(&conn.talk);
        self.watch.writes(&mut conn.seen, &bytes[..count]);
        self.talks.sent(&mut conn.talk, count);
    }

    fn take(&self, conn: &mut Watched<V::Seen>, bytes: &[u8]) {
        self.talks.take(&mut conn.talk, bytes);
    }

    fn go_on<D: Desk>(
        &self,
        room: &mut Buffers,
        conn: &mut Watched<V::Seen>,
        desk: &mut D,
        seconds: u64,
    ) -> Next {
        if matches!(conn.talk.stage, Stage::Busy) {
            self.watch.begins(&mut conn.seen, &conn.talk.kept);
        }
        self.talks.go_on(room, &mut conn.talk, desk, seconds)
    }
}
