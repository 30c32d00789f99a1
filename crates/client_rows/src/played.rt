// A link that plays a row.

ghost use Rattle.std.specs.Prelude.{◌≡◌, [], length};

use crate::body::Body;
use crate::countdown::Countdown;
use crate::update_client_replies::Replies;
use std::alloc::{AllocError, Global};
use std::str;
use streams::Trace;
use update_client::{Failed, Link};

/// What a link has carried, for contracts.
#[derive(Drop)]
pub(crate) struct Carried {
    posts: Trace<(Trace<u8>, Trace<u8>)>,
    opened: Trace<Trace<u8>>,
    received: Trace<u8>,
    failures: Trace<()>,
}

/// A link over the replies and the bodies of a row.
#[derive(Drop)]
pub(crate) struct Played<'a> {
    replies: Replies<'a>,
    bodies: &'a str,
    body: Body<'a>,
    piece: usize,
    countdown: Countdown,
    carried: Carried,
    /// The prefixes that were sent, each after `pin:`, and the addresses; a word each.
    pub(crate) log: String,
}

impl<'a> Played<'a> {
    /// A link over replies and over bodies that are separated by spaces, the last of which serves all further
    /// downloads; at most `piece` bytes a call, and the call after so many fails.
    pub(crate) fn new(
        alloc: Global,
        replies: &'a str,
        bodies: &'a str,
        piece: usize,
        calls: u64,
    ) -> Played<'a> {
        Played {
            replies: Replies::new(replies),
            bodies,
            body: Body::new("", piece),
            piece,
            countdown: Countdown::new(calls),
            carried: Carried {
                posts: Trace::new(),
                opened: Trace::new(),
                received: Trace::new(),
                failures: Trace::new(),
            },
            log: String::new(alloc),
        }
    }
}

// The prefix of versions that a request has, empty if there is none.
fn prefix_in(body: &[u8]) -> &str {
    let text = str::from_utf8(body).unwrap_or("");
    match text.split_once("\"targetversionprefix\":\"") {
        Some((_, rest)) => rest.split_once('"').unwrap_or(("", "")).0,
        None => "",
    }
}

// Adds the prefix of a request, if there is one.
fn push_prefix(log: &mut String, body: &[u8]) -> Result<(), AllocError> {
    let prefix = prefix_in(body);
    if prefix.is_empty() {
        return Ok(());
    }
    write!(log, "pin:{prefix} ")
}

impl Link for Played<'_> {
    ghost posts = { λ link. link.carried.posts };

    ghost opened = { λ link. link.carried.opened };

    ghost received = { λ link. link.carried.received };

    ghost ended = { λ link. link.body.left.now ≡ [] };

    ghost failures = { λ link. length link.carried.failures };

    fn post(&mut self, alloc: Global, body: &[u8]) -> Result<Vec<u8>, Failed> {
        let logged = push_prefix(&mut self.log, body).is_ok();
        if logged && !self.countdown.is_over() {
            if let Ok(reply) = self.replies.next(alloc) {
                let reply = reply.into_bytes();
                self.carried
                    .posts
                    .push(&(Trace::of(body), Trace::of(&reply)));
                return Ok(reply);
            }
        }
        self.carried.failures.push(&());
        Err(Failed)
    }

    fn open(&mut self, address: &str) -> Result<(), Failed> {
        self.carried.opened.push(&Trace::of(address.as_bytes()));
        let logged = self.log.push_str(address).is_ok() && self.log.push_str(" ").is_ok();
        if self.countdown.is_over() || !logged {
            self.carried.failures.push(&());
            return Err(Failed);
        }
        let word = match self.bodies.split_once(' ') {
            Some((word, rest)) => {
                self.bodies = rest;
                word
            }
            None => self.bodies,
        };
        self.body = Body::new(word, self.piece);
        self.carried.received = Trace::new();
        Ok(())
    }

    fn read(&mut self, into: &mut [u8]) -> Result<usize, Failed> {
        if self.countdown.is_over() {
            self.carried.failures.push(&());
            return Err(Failed);
        }
        let count = self.body.read(into);
        self.carried.received.extend(&into[..count]);
        Ok(count)
    }
}
