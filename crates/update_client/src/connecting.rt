ghost use Rattle.std.specs.Prelude.{◌≡◌, ◌<◌, ◌≤◌, length, IfOk};
ghost use Rattle.update_client.specs.Bodies.{left_of};
ghost use Rattle.update_client.specs.Replies.{PostedWithin};

use crate::body::Body;
use crate::heads::{Address, LinkFault, Post, parse_address};
use crate::opening::open_over;
use crate::posting::{Reply, post_over};
use crate::timed::{Deadline, Timed, connect, connect_path};
use http_devices::{Reading, Writing};
use http_wire::Failed;
use std::alloc::Global;
use std::io::{Read, Write};
use std::marker::Brand;
use std::net::{Net, TcpListener, TcpStream};
use std::sync::ledger::{Blank, Ledger};
use std::time::{Clock, Duration};

// Posts over a connection.
fn post_on<S: Read + Write + Copy + Drop, A: Ledger, B: Ledger>(
    alloc: Global,
    stream: S,
    reads: Blank,
    writes: Blank,
    post: &Post<'_>,
    limit: u64,
) -> Result<Reply, LinkFault>
    requires read_name { reads.name ≡ A.name }
    requires read_parts { reads.parts ≡ A.parts }
    requires some_reads { 0 < reads.parts }
    requires write_name { writes.name ≡ B.name }
    requires write_parts { writes.parts ≡ B.parts }
    requires some_writes { 0 < writes.parts }
    ensures { PostedWithin limit result }
{
    let mut source = Reading::<S, A>::new(stream, reads);
    let mut sink = Writing::<S, B>::new(stream, writes);
    post_over(alloc, &mut source, &mut sink, post, limit)
}

// Opens a download over a connection.
fn open_on<S: Read + Write + Copy + Drop, A: Ledger, B: Ledger>(
    alloc: Global,
    stream: S,
    reads: Blank,
    writes: Blank,
    address: &Address<'_>,
) -> Result<Body, LinkFault>
    requires read_name { reads.name ≡ A.name }
    requires read_parts { reads.parts ≡ A.parts }
    requires some_reads { 0 < reads.parts }
    requires write_name { writes.name ≡ B.name }
    requires write_parts { writes.parts ≡ B.parts }
    requires some_writes { 0 < writes.parts }
{
    let mut source = Reading::<S, A>::new(stream, reads);
    let mut sink = Writing::<S, B>::new(stream, writes);
    open_over(alloc, &mut source, &mut sink, address)
}

// Reads some bytes of a download over its connection.
fn read_on<S: Read + Drop, A: Ledger>(
    stream: S,
    reads: Blank,
    body: &mut Body,
    into: &mut [u8],
) -> Result<usize, Failed>
    requires name { reads.name ≡ A.name }
    requires parts { reads.parts ≡ A.parts }
    requires some { 0 < reads.parts }
    ensures bound { IfOk result (λ count. count ≤ length into.new) }
    ensures end { IfOk result (λ count. 0 < length into.new → count ≡ 0 → left_of body.new ≡ 0) }
{
    let mut source = Reading::<S, A>::new(stream, reads);
    body.read(&mut source, into)
}

// Posts over a connection, in time.
fn post_once<R: Clock>(
    alloc: Global,
    rt: &R,
    stream: &TcpStream,
    deadline: Deadline,
    post: &Post<'_>,
    limit: u64,
) -> Result<Reply, LinkFault>
    ensures { PostedWithin limit result }
{
    let (reads, writes) = (Blank::new(1), Blank::new(1));
    let timed = Timed::new(rt, stream, deadline);
    post_on::<Timed<'_, R>, Brand, Brand>(alloc, timed, reads, writes, post, limit)
}

// rule: Time limit of an exchange
/// Posts to a host, which is looked up as `HOST:PORT`, over a connection of its own, and returns the reply, whatever its
/// status.
///
/// The whole exchange may take so much time, but for what the system takes to look up a name; the reply's body may have as
/// many bytes as the limit. What is left of the time is rounded up to a microsecond when it is sent or read, and to a
/// millisecond when it connects. Errors are those of `post_over` after `Connect`, which says that there is no connection
/// within that time: never one within zero.
pub fn post_to<R: Net<Listener = TcpListener, Stream = TcpStream> + Clock>(
    alloc: Global,
    rt: &R,
    time: Duration,
    post: &Post<'_>,
    limit: u64,
) -> Result<Reply, LinkFault>
    ensures { PostedWithin limit result }
{
    let Ok(deadline) = Deadline::after(rt, time) else {
        return Err(LinkFault::Connect);
    };
    let Ok(stream) = connect(rt, post.host, &deadline) else {
        return Err(LinkFault::Connect);
    };
    post_once(alloc, rt, &stream, deadline, post, limit)
}

/// Posts to who listens at the socket of a path, over a connection of its own, as `post_to` does.
pub(crate) fn post_at<R: Net + Clock>(
    alloc: Global,
    rt: &R,
    path: &str,
    time: Duration,
    post: &Post<'_>,
    limit: u64,
) -> Result<Reply, LinkFault>
    ensures { PostedWithin limit result }
{
    let Ok(deadline) = Deadline::after(rt, time) else {
        return Err(LinkFault::Connect);
    };
    let Ok(stream) = connect_path(rt, path) else {
        return Err(LinkFault::Connect);
    };
    post_once(alloc, rt, &stream, deadline, post, limit)
}

// Opens a download over a connection, in time.
fn open_by<R: Clock>(
    alloc: Global,
    rt: &R,
    stream: &TcpStream,
    deadline: Deadline,
    address: &Address<'_>,
) -> Result<Body, LinkFault> {
    let (reads, writes) = (Blank::new(1), Blank::new(1));
    let timed = Timed::new(rt, stream, deadline);
    open_on::<Timed<'_, R>, Brand, Brand>(alloc, timed, reads, writes, address)
}

/// Opens the download at an address, over a connection of its own, in time.
pub(crate) fn open_at<R: Net<Listener = TcpListener, Stream = TcpStream> + Clock>(
    alloc: Global,
    rt: &R,
    address: &str,
    deadline: Deadline,
) -> Result<(TcpStream, Body), LinkFault> {
    let Some(address) = parse_address(address) else {
        return Err(LinkFault::Address);
    };
    let Ok(stream) = connect(rt, (address.host, address.port), &deadline) else {
        return Err(LinkFault::Connect);
    };
    let body = open_by(alloc, rt, &stream, deadline, &address)?;
    Ok((stream, body))
}

/// Reads some bytes of a download over its connection, in time, as `Body::read` does.
pub(crate) fn read_from<R: Clock>(
    rt: &R,
    stream: &TcpStream,
    deadline: Deadline,
    body: &mut Body,
    into: &mut [u8],
) -> Result<usize, Failed>
    ensures bound { IfOk result (λ count. count ≤ length into.new) }
    ensures end { IfOk result (λ count. 0 < length into.new → count ≡ 0 → left_of body.new ≡ 0) }
{
    let reads = Blank::new(1);
    read_on::<Timed<'_, R>, Brand>(Timed::new(rt, stream, deadline), reads, body, into)
}
