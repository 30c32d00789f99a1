ghost use Rattle.std.specs.Prelude.{◌≡◌, ◌++◌, ◌≤◌, ℕ, Bool, List, [], Option, length, option_map, take};
ghost use Rattle.http_desks.specs.Calls.{Call, Leads};
ghost use Rattle.http_ports.specs.Speech.{IsNext, Phase, Waiting};
ghost use Rattle.http_ports.specs.Traffic.{IsTime, later};
ghost use Rattle.http_ports.specs.declared.timestamp.Timestamp.{Timestamp};

use http_desks::Desk;
use std::net::IpAddr;

/// How a connection goes on once all that was made is sent.
#[derive(Clone, Copy, Drop)]
pub enum Next {
    /// There is more to send.
    Made,
    /// It waits for bytes.
    Waits,
    /// It is over.
    Over,
}

/// What is said on a connection, whose bytes come and are sent in parts of any length.
pub trait Protocol {
    /// What is kept of a connection.
    type Conn: Drop;

    /// Room that the connections use in turn.
    type Room;

    // the bytes that were made and not yet sent
    ghost pending: { Self.Conn → List ℕ };

    // the bytes that wait, if a message may begin with them
    ghost waiting: { Self.Conn → Option (List ℕ) };

    // how the connection goes on once they are sent
    ghost phase: { Self.Conn → Phase };

    // memory ran out for the connection
    ghost is_lost: { Self.Conn → Bool };

    // with a desk of this path and type, with these timestamps: these bytes were received and sent, and these calls of the desk
    // are for them
    ghost so_far: { Self → List ℕ → List ℕ → List Timestamp → Self.Conn → List ℕ → List ℕ → List Call → Type 0 };

    /// Begins with a connection that was accepted, from this address if it is known.
    fn open(&self, peer: Option<IpAddr>) -> Self::Conn
        ensures pending { pending result ≡ [] }
        ensures so_far { (path kind : List ℕ) → so_far self.now path kind [] result [] [] [] };

    /// Returns the bytes that were made and not yet sent.
    fn pending<'c>(&self, conn: &'c Self::Conn) -> &'c [u8]
        ensures { result.now ≡ pending conn.now };

    /// Returns the bytes that wait, if a message may begin with them; none while the reply to one is under way.
    fn waiting<'c>(&self, conn: &'c Self::Conn) -> Option<&'c [u8]>
        ensures { option_map (λ bytes. bytes.now) result ≡ waiting conn.now };

    /// Ends with a connection that was closed, and returns whether memory ran out for it.
    fn end(&self, conn: Self::Conn) -> bool
        ensures { result ≡ is_lost conn };

    /// Notes that so many of the pending bytes were sent.
    fn sent(&self, conn: &mut Self::Conn, count: usize)
        requires { count ≤ length (pending conn.old) }
        ensures so_far { (path kind received sent : List ℕ) (timestamps : List Timestamp) (calls : List Call)
            → so_far self.now path kind timestamps conn.old received sent calls
            → so_far self.now path kind timestamps conn.new received (sent ++ take count (pending conn.old)) calls };

    /// Takes bytes that came, for which the connection waits.
    fn take(&self, conn: &mut Self::Conn, bytes: &[u8])
        requires { phase conn.old ≡ Waiting }
        ensures so_far { (path kind received sent : List ℕ) (timestamps : List Timestamp) (calls : List Call)
            → so_far self.now path kind timestamps conn.old received sent calls
            → so_far self.now path kind timestamps conn.new (received ++ bytes.now) sent calls };

    /// Goes on, by the desk, once all that was made is sent, at a time that was given for it: so many seconds after the
    /// start of 1970.
    fn go_on<D: Desk>(
        &self,
        room: &mut Self::Room,
        conn: &mut Self::Conn,
        desk: &mut D,
        seconds: u64,
    ) -> Next
        requires sent { pending conn.old ≡ [] }
        requires time { IsTime seconds }
        ensures next { IsNext result (pending conn.new) (phase conn.new) }
        ensures calls { (calls : List Call) × Leads D.steps desk.old calls desk.new
            × ((received sent : List ℕ) (timestamps : List Timestamp) (made : List Call)
            → so_far self.now (D.path desk.old) (D.content_type desk.old) timestamps conn.old received sent made
            → so_far self.now (D.path desk.old) (D.content_type desk.old) (later timestamps seconds (waiting conn.old) received sent) conn.new received sent (made ++ calls)) }
        ensures path { D.path desk.new ≡ D.path desk.old }
        ensures content_type { D.content_type desk.new ≡ D.content_type desk.old };
}
