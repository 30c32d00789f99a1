ghost use Rattle.std.specs.Prelude.{◌≡◌, ◌+◌, ◌<◌, ◌≤◌, ◌++◌, [], ◌∷◌, take, length, IfOk, OnOk, is_ok, if◌then◌else◌};
ghost use Rattle.std.specs.Result.{result_map_both};
ghost use Rattle.update_client.specs.Bodies.{left_of};
ghost use Rattle.update_client.specs.Installing.{posted};

use crate::Failed;
use crate::body::Body;
use crate::connecting::{open_at, post_to, read_from};
use crate::heads::{LinkFault, Post};
use crate::link::Link;
use crate::posting::Reply;
use crate::timed::Deadline;
use std::alloc::Global;
use std::net::{Net, TcpListener, TcpStream};
use std::time::{Clock, Duration};
use streams::Trace;

/// The path that update checks are posted to.
pub const UPDATE_PATH: &str = "/service/update2/json";

/// The most bytes that the body of the reply to an update check may have.
pub const MAX_REPLY: u64 = 1_048_576;

/// How many bytes of a download have to come in each time limit.
const PORTION: usize = 65536;

// A download over its connection, and how many bytes it has brought since its time limit began.
struct Download {
    stream: TcpStream,
    deadline: Deadline,
    brought: usize,
}

// Written out, so that no caller proves again how each part is dropped.
impl Drop for Download {
    fn drop(self) {
        let Download {
            stream: _,
            deadline: _,
            brought: _,
        } = self;
    }
}

impl Download {
    // Begins the time limit of the next portion if this one has come.
    fn begin_portion<R: Clock>(&mut self, rt: &R, seconds: u64) -> Result<(), Failed> {
        if self.brought < PORTION {
            return Ok(());
        }
        let Ok(deadline) = Deadline::after(rt, Duration::from_secs(seconds)) else {
            return Err(Failed);
        };
        self.deadline = deadline;
        self.brought = 0;
        Ok(())
    }

    // rule: Time limit of an exchange
    // Reads some bytes, as `Body::read` does.
    fn read<R: Clock>(
        &mut self,
        rt: &R,
        seconds: u64,
        body: &mut Body,
        into: &mut [u8],
    ) -> Result<usize, Failed>
        ensures bound { IfOk result (λ count. count ≤ length into.new) }
        ensures end { IfOk result (λ count. 0 < length into.new → count ≡ 0 → left_of body.new ≡ 0) }
    {
        self.begin_portion(rt, seconds)?;
        let read = read_from(rt, &self.stream, self.deadline, body, into);
        if let Ok(count) = &read {
            self.brought = self.brought.saturating_add(*count);
        }
        read
    }
}

/// The link to a server over TCP, with a connection for each post and each download; a post ends the download before it.
///
/// It posts to a host, and downloads from wherever an address says. A whole post has a time limit, and so has each 64 KiB
/// of a download, the first with its request.
#[derive(Drop)]
pub struct HttpLink<'a, R: Net<Listener = TcpListener, Stream = TcpStream> + Clock> {
    alloc: Global,
    rt: &'a R,
    host: &'a str,
    seconds: u64,
    download: Option<Download>,
    body: Body,
    posts: Trace<(Trace<u8>, Trace<u8>)>,
    opened: Trace<Trace<u8>>,
    received: Trace<u8>,
    failures: Trace<Failed>,
}

impl<'a, R: Net<Listener = TcpListener, Stream = TcpStream> + Clock> HttpLink<'a, R> {
    /// Makes the link to a host, which isn't looked up: `HOST:PORT`, with an IPv6 address in brackets. A post and 64 KiB of
    /// a download may take so many seconds, at least one.
    pub fn new(alloc: Global, rt: &'a R, host: &'a str, seconds: u64) -> HttpLink<'a, R>
        requires limited { 0 < seconds }
        ensures posts { result.posts ≡ [] }
        ensures opened { result.opened ≡ [] }
        ensures received { result.received ≡ [] }
        ensures failures { result.failures ≡ [] }
    {
        HttpLink {
            alloc,
            rt,
            host,
            seconds,
            download: None,
            body: Body::empty(alloc),
            posts: Trace::new(),
            opened: Trace::new(),
            received: Trace::new(),
            failures: Trace::new(),
        }
    }
}

impl<'a, R: Net<Listener = TcpListener, Stream = TcpStream> + Clock> HttpLink<'a, R> {
    // rule: Reply that a link reads
    // The reply to an update check.
    fn check(&self, alloc: Global, body: &[u8]) -> Result<Reply, LinkFault>
        ensures status { IfOk result (λ reply. reply.status ≡ 200) }
        ensures within { IfOk result (λ reply. length reply.body.items ≤ MAX_REPLY) }
    {
        let post = Post {
            host: self.host,
            path: UPDATE_PATH,
            kind: "application/json",
            body,
        };
        let time = Duration::from_secs(self.seconds);
        post_to(alloc, self.rt, time, &post, MAX_REPLY)?.error_for_status()
    }

    // The download at an address.
    fn download_at(&self, address: &str) -> Result<(Download, Body), LinkFault> {
        let Ok(deadline) = Deadline::after(self.rt, Duration::from_secs(self.seconds)) else {
            return Err(LinkFault::Connect);
        };
        let (stream, body) = open_at(self.alloc, self.rt, address, deadline)?;
        let download = Download {
            stream,
            deadline,
            brought: 0,
        };
        Ok((download, body))
    }
}

impl<'a, R: Net<Listener = TcpListener, Stream = TcpStream> + Clock> Link for HttpLink<'a, R> {
    ghost use Rattle.update_client.specs.Bodies.{left_of};

    ghost posts = { λ link. link.posts };

    ghost opened = { λ link. link.opened };

    ghost received = { λ link. link.received };

    // all that was announced has come, or the input has ended
    ghost ended = { λ link. left_of link.body ≡ 0 };

    ghost failures = { λ link. length link.failures };

    // Without the connection of the last download: a server of one worker may wait for its end.
    fn post(&mut self, alloc: Global, body: &[u8]) -> Result<Vec<u8>, Failed> {
        self.download = None;
        match self.check(alloc, body) {
            Ok(reply) => {
                self.posts.push(&(Trace::of(body), Trace::of(&reply.body)));
                Ok(reply.body)
            }
            Err(_) => {
                self.failures.push(&Failed);
                Err(Failed)
            }
        }
    }

    fn open(&mut self, address: &str) -> Result<(), Failed> {
        self.opened.push(&Trace::of(address.as_bytes()));
        self.received = Trace::new();
        match self.download_at(address) {
            Ok((download, body)) => {
                self.download = Some(download);
                self.body = body;
                Ok(())
            }
            Err(_) => {
                self.download = None;
                self.body = Body::empty(self.alloc);
                self.failures.push(&Failed);
                Err(Failed)
            }
        }
    }

    fn read(&mut self, into: &mut [u8]) -> Result<usize, Failed> {
        let Some(download) = &mut self.download else {
            self.body = Body::empty(self.alloc);
            return Ok(0);
        };
        match download.read(self.rt, self.seconds, &mut self.body, into) {
            Ok(count) => {
                self.received.extend(&into[..count]);
                Ok(count)
            }
            Err(_) => {
                self.failures.push(&Failed);
                Err(Failed)
            }
        }
    }
}
