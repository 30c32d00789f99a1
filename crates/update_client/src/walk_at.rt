// What can reach a server.

ghost use Rattle.std.specs.Prelude.{◌≡◌, ◌≤◌, IfErr, IfOk, false, length, true};
ghost use Rattle.update_client.specs.Replies.{IsPostFault};
ghost use Rattle.update_client.specs.Walking.{IsWalkOver};

use crate::LinkFault;
use crate::client::Client;
use crate::connecting::{post_at, post_to};
use crate::fault::Fault;
use crate::heads::Post;
use crate::http_link::HttpLink;
use crate::posting::Reply;
use crate::presence::{Patience, is_host_gone, is_path_gone};
use crate::printed_walk::walk_app;
use crate::walking::Walk;
use std::alloc::Global;
use std::net::{Net, TcpListener, TcpStream};
use std::time::{Clock, Duration};
use streams::WriteWhole;
use values::ReadError;

/// What an exchange may take.
#[derive(Clone, Copy)]
pub struct Limits {
    /// How many seconds the whole of it may take; 0 counts as 1.
    pub seconds: u64,
    /// How many bytes the body of the reply may have.
    pub reply: u64,
}

/// The path that an operator's scripts are posted to.
const OPERATE_PATH: &str = "/operate";

// A message of an operator's, to a host.
fn operation<'a>(host: &'a str, body: &'a [u8]) -> Post<'a> {
    Post {
        host,
        path: OPERATE_PATH,
        kind: "text/plain; charset=utf-8",
        body,
    }
}

/// What can reach a server: a runtime with a network, or a test's stand-in for one.
pub trait Connector {
    ghost use Rattle.std.specs.Prelude.{ℕ, List};
    ghost use Rattle.update_client.specs.Endings.{Endings};
    ghost use Rattle.update_client.specs.Walks.{Post};
    ghost use Rattle.update_client.specs.declared.posting.Reply.{Reply};

    // the posts were made to the server at an address, each with the reply that came back
    ghost replies: { Self → List ℕ → List Post → Type 0 };

    // the operator's listener at an address gave that reply to that body
    ghost operated: { Self → List ℕ → List ℕ → Reply → Type 0 };

    // what may be seen of the end of the server of an operator's listener
    ghost endings: { Self → Endings };

    // rule: Walk over connections
    /// Walks a client along the offers of the server at an address, as `walk_app` does.
    ///
    /// The address is `HOST:PORT`, with an IPv6 address in brackets. Each post and each download has a connection
    /// of its own. A post and 64 KiB of a download may take so many seconds; 0 counts as 1.
    fn walk_app_at<W: WriteWhole>(
        &self,
        alloc: Global,
        address: &str,
        seconds: u64,
        client: &mut Client,
        out: &mut W,
    ) -> Result<Walk, ReadError<Fault>>
        ensures { IsWalkOver (replies self.now address.now) client.old client.new (W.output out.old) (W.output out.new) result };

    /// Posts a body to the operator's listener at an address, and returns the reply, whatever its status.
    ///
    /// The address is `HOST:PORT`, as above, or `unix:PATH` for a socket. The limits say what the exchange may take. Errors
    /// are those of `post_to`.
    fn operate_at(
        &self,
        alloc: Global,
        address: &str,
        limits: Limits,
        body: &[u8],
    ) -> Result<Reply, LinkFault>
        ensures ok { IfOk result (λ reply. operated self.now address.now body.now reply) }
        ensures within { IfOk result (λ reply. length reply.body.items ≤ limits.reply) }
        ensures err { IfErr result IsPostFault };

    /// Whether nobody listens at an operator's address: a connection is rejected, or the socket of its path is gone.
    ///
    /// The address is one of `operate_at`. A connection may take a second, and is closed at once; nothing is sent.
    fn is_gone(&self, address: &str) -> bool
        ensures { result ≡ true → (endings self.now).gone address.now };

    /// Begins a wait of so many seconds; 0 counts as 1.
    fn begin_wait(&self, seconds: u64) -> Patience
        ensures { result.seconds ≡ seconds };

    /// Sleeps for a fifth of a second of a wait, or for what is left of it, and returns whether anything was left.
    fn pause(&self, patience: Patience) -> bool
        ensures { result ≡ false → (endings self.now).over patience.seconds };
}

impl<R: Net<Listener = TcpListener, Stream = TcpStream> + Clock> Connector for R {
    ghost use Rattle.std.specs.Prelude.{⊤};

    ghost replies = { λ _ _ _. ⊤ };

    ghost operated = { λ _ _ _ _. ⊤ };

    ghost endings = { λ _. record {
      gone = λ _. ⊤;
      over = λ _. ⊤;
    } };

    fn walk_app_at<W: WriteWhole>(
        &self,
        alloc: Global,
        address: &str,
        seconds: u64,
        client: &mut Client,
        out: &mut W,
    ) -> Result<Walk, ReadError<Fault>> {
        let mut link = HttpLink::new(alloc, self, address, seconds.max(1));
        walk_app(alloc, client, &mut link, out)
    }

    fn operate_at(
        &self,
        alloc: Global,
        address: &str,
        limits: Limits,
        body: &[u8],
    ) -> Result<Reply, LinkFault> {
        let time = Duration::from_secs(limits.seconds.max(1));
        match address.strip_prefix("unix:") {
            Some(path) => {
                let post = operation("localhost", body);
                post_at(alloc, self, path, time, &post, limits.reply)
            }
            None => post_to(alloc, self, time, &operation(address, body), limits.reply),
        }
    }

    fn is_gone(&self, address: &str) -> bool {
        match address.strip_prefix("unix:") {
            Some(path) => is_path_gone(self, path),
            None => is_host_gone(self, address),
        }
    }

    fn begin_wait(&self, seconds: u64) -> Patience {
        Patience::begin(self, seconds)
    }

    fn pause(&self, patience: Patience) -> bool {
        patience.pause(self)
    }
}
