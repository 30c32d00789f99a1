// A source and a sink whose bytes a watch is shown.

use http_memory::{Input, Output};
use http_wire::{Sink, Source, Watch, WatchedSink, WatchedSource};
use std::alloc::Global;
use std::net::IpAddr;
use std::sync::atomic::{AtomicU64, Ordering};

// Counts the bytes that it is shown.
#[derive(Drop)]
struct Counter {
    read: AtomicU64,
    written: AtomicU64,
}

impl Watch for Counter {
    fn opens(&self, _peer: Option<IpAddr>) {}

    fn begins(&self, _waiting: &[u8]) {}

    fn reads(&self, bytes: &[u8]) {
        self.read.fetch_add(bytes.len() as u64, Ordering::SeqCst);
    }

    fn writes(&self, bytes: &[u8]) {
        self.written.fetch_add(bytes.len() as u64, Ordering::SeqCst);
    }

    fn ends(&self) {}
}

// How many bytes a watched source of `abcd` gives, in pieces of three.
fn read_by(watch: &Counter) -> Option<usize> {
    let mut source = WatchedSource::new(Input::new(b"abcd", 3), watch);
    let mut bytes = [0; 8];
    let first = source.read(&mut bytes).ok()?;
    let second = source.read(&mut bytes[4..]).ok()?;
    (bytes == *b"abc\0d\0\0\0").then_some(first.saturating_add(second))
}

// How many bytes of `abcd` a watched sink takes, in one piece of three.
fn write_by(alloc: Global, watch: &Counter) -> Option<usize> {
    let mut sink = WatchedSink::new(Output::new(alloc, 3), watch);
    sink.write(b"abcd").ok()
}

// Whether a watch is shown each byte that passes.
fn is_shown(alloc: Global) -> bool {
    let counter = Counter {
        read: AtomicU64::new(0),
        written: AtomicU64::new(0),
    };
    let passed = (read_by(&counter), write_by(alloc, &counter));
    let seen = (
        counter.read.load(Ordering::SeqCst),
        counter.written.load(Ordering::SeqCst),
    );
    passed == (Some(4), Some(3)) && seen == (4, 3)
}

#[test]
fn a_watch_is_shown_the_bytes_that_pass(rt: HostRuntime) {
    assert!(rt; is_shown(rt.alloc()));
}
