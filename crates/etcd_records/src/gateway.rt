// What carries requests to etcd's servers.

ghost use Rattle.std.specs.Prelude.{◌≡◌, ◌++◌, ◌∷◌, [], List};
ghost use Rattle.etcd_records.specs.declared.exchange.Exchange.{Exchange};
ghost use Rattle.etcd_records.specs.Exchanges.{exchange_of};

use std::alloc::Global;
use values::Items;

/// A server's response to a request.
pub struct Response {
    /// The status of HTTP.
    pub status: u16,
    /// The body's bytes, whatever they are.
    pub body: Items<u8>,
}

// Written out, so that no caller proves again how each part is dropped.
impl Drop for Response {
    fn drop(self) {
        let Response { status: _, body: _ } = self;
    }
}

/// Why there is no whole response to a request.
#[derive(Clone, Copy, Drop)]
pub enum GatewayFault {
    /// Nothing was sent: certainly no server carried the request out.
    Unsent,
    /// It was sent, or a part of it, and no whole response came: a server may have carried it out.
    Unanswered,
    /// An allocation failed: a server may have carried the request out.
    Memory,
}

/// Posts requests to the JSON gateway of etcd's servers.
pub trait Gateway {
    // what was posted, and what came of it, in order
    ghost exchanges: { Self → List Exchange };

    /// Posts a body to a path of some server, once, and returns its response.
    ///
    /// Which server is the gateway's choice; after a failure it should be another one at the next call.
    fn post(&mut self, alloc: Global, path: &str, body: &[u8]) -> Result<Response, GatewayFault>
        ensures { exchanges self.new ≡ exchanges self.old ++ exchange_of path.now body.now result ∷ [] };

    /// Has another server be the next one, after a reply that doesn't count.
    fn go_on(&mut self)
        ensures { exchanges self.new ≡ exchanges self.old };
}
