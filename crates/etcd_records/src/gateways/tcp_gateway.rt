// A gateway to etcd's servers over TCP.

ghost use Rattle.std.specs.Prelude.{◌≡◌, ◌<◌, ◌≤◌, ◌++◌, ◌∷◌, [], IfOk, Some, length, slice_get};
ghost use Rattle.etcd_records.specs.Exchanges.{exchange_of};
ghost use Rattle.update_client.specs.Replies.{PostedWithin};
ghost use Rattle.etcd_records.specs.Turns.{IsWithin, came_of, goes_on, next_place, place_after};

use crate::exchange::Exchange;
use crate::gateway::{Gateway, GatewayFault, Response};
use std::alloc::Global;
use std::marker::Model;
use std::net::{Net, TcpListener, TcpStream};
use std::time::{Clock, Duration};
use streams::Trace;
use update_client::{LinkFault, Post, Reply, post_to};
use values::{Items, Text};

/// How many bytes the body of a reply may have: 384 MiB.
///
/// It has the value of a record at most, in base64, beside less than 64 KiB. A profile is the largest record, with 256 MiB;
/// base64 makes a third more of it. So whatever was appended can be read. Memory grows only as bytes come.
pub const MAX_REPLY: u64 = 402_653_184;

// rule: Turns of addresses
// Whether the next post goes to the next address: unless the server replied with the status 200.
fn goes_on(came: &Result<Response, GatewayFault>) -> bool
    ensures { result ≡ goes_on came.now }
{
    match came {
        Ok(response) => response.status != 200,
        Err(_) => true,
    }
}

// rule: Turns of addresses
// The place after that one among so many.
fn next_place(count: usize, place: usize) -> usize
    requires { place < count }
    ensures is { result ≡ next_place count place }
    ensures within { result < count }
{
    if place + 1 < count { place + 1 } else { 0 }
}

// rule: What came of a post over TCP
// What a post came to. Without a connection nothing was sent.
fn came_of(posted: Result<Reply, LinkFault>) -> Result<Response, GatewayFault>
    ensures { result ≡ came_of posted }
{
    match posted {
        Ok(Reply { status, body }) => Ok(Response {
            status,
            body: Items::new(body),
        }),
        Err(LinkFault::Connect) => Err(GatewayFault::Unsent),
        Err(LinkFault::Memory) => Err(GatewayFault::Memory),
        Err(_) => Err(GatewayFault::Unanswered),
    }
}

// Posts to an address.
fn post_at<R: Net<Listener = TcpListener, Stream = TcpStream> + Clock>(
    alloc: Global,
    rt: &R,
    time: Duration,
    address: &str,
    path: &str,
    body: &[u8],
) -> Result<Response, GatewayFault>
    ensures { IsWithin MAX_REPLY result }
{
    let post = Post {
        host: address,
        path,
        kind: "application/json",
        body,
    };
    came_of(post_to(alloc, rt, time, &post, MAX_REPLY))
}

/// A gateway to etcd's servers over TCP. Each post has a connection of its own.
///
/// Contracts see the addresses, the place of the one that the next post goes to, and what was posted and what came of it.
/// They can't express that the bytes went there, nor how much time that took.
pub struct TcpGateway<'a, R: Net<Listener = TcpListener, Stream = TcpStream> + Clock> {
    rt: &'a R,
    time: Duration,
    addresses: Items<Text>,
    place: usize,
    exchanges: Trace<Exchange>,
}

// Written out, so that no caller proves again how each part is dropped.
impl<'a, R: Net<Listener = TcpListener, Stream = TcpStream> + Clock> Drop for TcpGateway<'a, R> {
    fn drop(self) {
        let TcpGateway {
            rt: _,
            time: _,
            addresses: _,
            place: _,
            exchanges: _,
        } = self;
    }
}

impl<'a, R: Net<Listener = TcpListener, Stream = TcpStream> + Clock> Model for TcpGateway<'a, R> {
    ghost use Rattle.std.specs.Prelude.{◌<◌, length};
    ghost use Rattle.etcd_records.specs.Gateways.{Posts, posts_code};

    ghost Value = { Posts };

    ghost coded = { posts_code };

    ghost view = { λ g. record { addresses = g.addresses; place = g.place; exchanges = g.exchanges } };

    ghost invariant = { λ g. g.place < length g.addresses };
}

impl<'a, R: Net<Listener = TcpListener, Stream = TcpStream> + Clock> TcpGateway<'a, R> {
    /// Makes the gateway to servers at these addresses, each `HOST:PORT`, of which the first is posted to first. It connects
    /// to none.
    ///
    /// A post may take so much time, but for what the system takes to look up a name.
    pub fn new(rt: &'a R, time: Duration, addresses: Items<Text>) -> TcpGateway<'a, R>
        requires { 0 < length addresses }
        ensures addresses { result.addresses ≡ addresses }
        ensures place { result.place ≡ 0 }
        ensures exchanges { result.exchanges ≡ [] }
    {
        TcpGateway {
            rt,
            time,
            addresses,
            place: 0,
            exchanges: Trace::new(),
        }
    }

    // The address that the next post goes to.
    fn address(&self) -> &str
        ensures { slice_get self.now.addresses self.now.place ≡ Some result.now }
    {
        self.addresses.as_slice()[self.place].as_str()
    }

    // Goes on to the next address, unless a server replied.
    fn turn(&mut self, came: &Result<Response, GatewayFault>)
        ensures place { self.new.place ≡ place_after (length self.old.addresses) self.old.place came.now }
        ensures addresses { self.new.addresses ≡ self.old.addresses }
        ensures exchanges { self.new.exchanges ≡ self.old.exchanges }
    {
        if goes_on(came) {
            self.place = next_place(self.addresses.len(), self.place);
        }
    }
}

impl<'a, R: Net<Listener = TcpListener, Stream = TcpStream> + Clock> Gateway for TcpGateway<'a, R> {
    ghost exchanges = { λ gateway. gateway.exchanges };

    /// Has the next address be posted to next, and after the last one the first one.
    fn go_on(&mut self)
        ensures place { self.new.place ≡ next_place (length self.old.addresses) self.old.place }
        ensures addresses { self.new.addresses ≡ self.old.addresses }
        ensures exchanges { self.new.exchanges ≡ self.old.exchanges }
    {
        self.place = next_place(self.addresses.len(), self.place);
    }

    /// Posts to the address whose turn it is. After anything but a reply with the status 200 it is the next one's, and after
    /// the last one the first one's again.
    fn post(&mut self, alloc: Global, path: &str, body: &[u8]) -> Result<Response, GatewayFault>
        ensures exchanges { self.new.exchanges ≡ self.old.exchanges ++ exchange_of path.now body.now result ∷ [] }
        ensures place { self.new.place ≡ place_after (length self.old.addresses) self.old.place result }
        ensures addresses { self.new.addresses ≡ self.old.addresses }
        ensures within { IsWithin MAX_REPLY result }
    {
        let came = post_at(alloc, self.rt, self.time, self.address(), path, body);
        self.exchanges.push(&Exchange::of(path, body, &came));
        self.turn(&came);
        came
    }
}
