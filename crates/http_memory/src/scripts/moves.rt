// What a peer sends and takes.

ghost use Rattle.std.specs.Prelude.{◌≡◌, ◌<◌, ◌≤◌, ℕ, [], length, option_map, IfOk, IsTrue, vec_len, vec_capacity};
ghost use Rattle.http_ports.specs.Traffic.{marked, no_traffic, timing};
ghost use Rattle.http_ports.specs.Ports.{IsWaiting, expiring};
ghost use Rattle.http_ports.specs.declared.last.Last.TheVariants.{Reported, Yields};
ghost use Rattle.http_memory.specs.Peers.{Gives, Takes, read_at_end, read_of, traffic_of, write_at_limit, write_of};

use crate::scripts::peer::{Finish, Peer};
use http_ports::{Last, Received, Sent, Timestamp, trace_waiting};
use std::alloc::{AllocError, Global};
use streams::Trace;

impl Peer {
    /// Makes a peer that sends this input in pieces of this length with a pause after each, and then ends it, and takes up
    /// to `room` bytes.
    pub fn new(alloc: Global, input: Vec<u8>, piece: usize, room: usize) -> Result<Peer, AllocError>
        ensures input { IfOk result (λ peer. peer.input ≡ input) }
        ensures piece { IfOk result (λ peer. peer.piece ≡ piece) }
        ensures fresh { IfOk result (λ peer. traffic_of peer ≡ no_traffic) }
        ensures room { IfOk result (λ peer. room ≤ vec_capacity peer.got) }
    {
        Ok(Peer {
            input,
            read: 0,
            got: Vec::with_capacity(alloc, room)?,
            piece,
            after_input: Finish::Ends,
            when_full: Finish::Fails,
            is_slow: true,
            pauses: false,
            timestamps: Trace::new(),
            last: Last::Reported,
            expired: false,
        })
    }

    // Begins its connection anew.
    pub(crate) fn connect(&mut self)
        ensures fresh { traffic_of self.new ≡ no_traffic }
        ensures input { self.new.input ≡ self.old.input }
    {
        self.read = 0;
        self.got.clear();
        self.pauses = false;
        self.timestamps = Trace::new();
        self.last = Last::Reported;
        self.expired = false;
    }

    // What a read comes to if there is no more input.
    fn after_input(&mut self) -> Received
        requires { self.old.read ≡ vec_len self.old.input }
        ensures is { result ≡ read_at_end self.old.after_input }
        ensures gives { Gives result [] self.old self.new }
    {
        match self.after_input {
            Finish::Ends => {
                self.last = Last::InputEnded;
                Received::End
            }
            Finish::Fails => {
                self.last = Last::ReadFailed;
                Received::Failure
            }
            Finish::Stays => {
                self.last = Last::WaitsToRead;
                Received::Nothing
            }
        }
    }

    // rule: Peer of a script
    /// Reads the next bytes of the input: a piece, or what is left of it, or what fits.
    pub(crate) fn read(&mut self, into: &mut [u8]) -> Received
        requires { 0 < length into.old }
        ensures is { result ≡ read_of self.old (length into.old) }
        ensures gives { Gives result into.new self.old self.new }
    {
        if self.read == self.input.len() {
            return self.after_input();
        }
        if self.pauses {
            self.pauses = false;
            self.last = Last::WaitsToRead;
            return Received::Nothing;
        }
        let left = &self.input[self.read..];
        let count = left.len().min(into.len()).min(self.piece.max(1));
        into[..count].copy_from_slice(&left[..count]);
        self.read += count;
        self.pauses = self.is_slow;
        self.last = Last::Passed;
        Received::Bytes(count)
    }

    // What a write comes to if there is no more room.
    fn when_full(&mut self) -> Sent
        ensures is { result ≡ write_at_limit self.old.when_full }
        ensures takes { Takes result [] self.old self.new }
    {
        match self.when_full {
            Finish::Stays => {
                self.last = Last::WaitsToWrite;
                Sent::Nothing
            }
            _ => {
                self.last = Last::WriteFailed;
                Sent::Failure
            }
        }
    }

    // rule: Peer of a script
    /// Takes a first part of the bytes: a piece, or as many as there are or as there is room for.
    pub(crate) fn write(&mut self, bytes: &[u8]) -> Sent
        requires { 0 < length bytes.now }
        ensures is { result ≡ write_of self.old (length bytes.now) }
        ensures takes { Takes result bytes.now self.old self.new }
    {
        let room = self.got.capacity() - self.got.len();
        if room == 0 {
            return self.when_full();
        }
        if self.pauses {
            self.pauses = false;
            self.last = Last::WaitsToWrite;
            return Sent::Nothing;
        }
        let count = bytes.len().min(room).min(self.piece.max(1));
        let Ok(()) = self.got.extend_from_slice(&bytes[..count]) else {
            return self.when_full();
        };
        self.pauses = self.is_slow;
        self.last = Last::Passed;
        Sent::Bytes(count)
    }

    // Whether it waits for something that never comes.
    pub(crate) fn is_stuck(&self) -> bool
        ensures { IsTrue result → IsWaiting self.now.last }
    {
        match self.last {
            Last::WaitsToRead => {
                self.read == self.input.len() && matches!(self.after_input, Finish::Stays)
            }
            Last::WaitsToWrite => {
                self.got.len() == self.got.capacity() && matches!(self.when_full, Finish::Stays)
            }
            _ => false,
        }
    }

    // Its connection is reported.
    pub(crate) fn report(&mut self)
        ensures reported { traffic_of self.new ≡ marked Reported (traffic_of self.old) }
        ensures input { self.new.input ≡ self.old.input }
    {
        self.last = Last::Reported;
    }

    // Its connection is to be reported again.
    pub(crate) fn yield_turn(&mut self)
        ensures yields { traffic_of self.new ≡ marked Yields (traffic_of self.old) }
        ensures input { self.new.input ≡ self.old.input }
    {
        self.last = Last::Yields;
    }

    // Its connection is given a timestamp, while these bytes wait, if a message may begin with them.
    pub(crate) fn note_time(&mut self, seconds: u64, waiting: Option<&[u8]>)
        ensures noted { traffic_of self.new ≡ timing seconds (option_map (λ bytes. bytes.now) waiting.entry) (traffic_of self.old) }
        ensures input { self.new.input ≡ self.old.input }
    {
        self.timestamps.push(&Timestamp {
            seconds,
            waiting: trace_waiting(waiting),
            received: self.read,
            sent: self.got.len(),
        });
    }

    // Its time is up.
    pub(crate) fn expire(&mut self)
        ensures expired { traffic_of self.new ≡ expiring (traffic_of self.old) }
        ensures input { self.new.input ≡ self.old.input }
    {
        self.expired = true;
    }
}
