// Two threads that publish by one press.

use fixtures::{CHAINED, open_profile, publish_empty};
use publisher::{Press, PublishError};
use std::alloc::Global;
use std::sync::{Mutex, Wait};
use std::thread::{Threads, join};

// The number that a publisher saw last, and how many of its batches were accepted and how many were stale.
#[derive(Clone, Copy, Drop)]
struct Turns {
    base: u64,
    accepted: u64,
    stale: u64,
    // whether each accepted number was one above its base, and each other one above it
    are_right: bool,
}

impl Turns {
    fn new() -> Turns {
        Turns {
            base: 1,
            accepted: 0,
            stale: 0,
            are_right: true,
        }
    }

    // After a batch that was accepted as an edition.
    fn accept(self, edition: u64) -> Turns {
        Turns {
            base: edition,
            accepted: self.accepted.saturating_add(1),
            are_right: self.are_right && edition == self.base.saturating_add(1),
            ..self
        }
    }

    // After a batch that was stale, since this edition was published.
    fn miss(self, edition: u64) -> Turns {
        Turns {
            base: edition,
            stale: self.stale.saturating_add(1),
            are_right: self.are_right && self.base < edition,
            ..self
        }
    }
}

// Publishes an empty batch on the number that was seen last.
fn publish_once<R: Threads + Wait>(
    rt: &R,
    alloc: Global,
    press: &Mutex<&mut Press>,
    turns: Turns,
) -> Turns {
    let mut press = press.lock(rt);
    match publish_empty(rt, alloc, &mut press, turns.base) {
        Ok(receipt) => turns.accept(receipt.edition()),
        Err(PublishError::Stale(receipt)) => turns.miss(receipt.edition()),
        Err(_) => turns,
    }
}

// Publishes until 50 batches were accepted, in 100 tries at most.
fn publish_often<R: Threads + Wait>(rt: &R, alloc: Global, press: &Mutex<&mut Press>) -> Turns {
    let mut turns = Turns::new();
    for _try in 0..100u32 {
        if turns.accepted < 50 {
            turns = publish_once(rt, alloc, press, turns);
        }
    }
    turns
}

// What two publishers at once come to.
fn run<R: Threads + Wait + Sync>(rt: &R, alloc: Global, press: &mut Press) -> (Turns, Turns) {
    let press = Mutex::new(press);
    join(
        rt,
        || publish_often(rt, alloc, &press),
        || publish_often(rt, alloc, &press),
    )
}

// Whether a publisher's 50 batches were accepted, and it was stale at most as often as the other one published.
fn is_done(turns: Turns) -> bool {
    turns.are_right && turns.accepted == 50 && turns.stale <= 50
}

// Whether two publishers bring a press from 1 to 101, of whom the one that comes second is stale.
fn publishes<R: Threads + Wait + Sync>(rt: &R, alloc: Global) -> bool {
    let Ok((press, _views)) = open_profile(rt, alloc, CHAINED, 1) else {
        return false;
    };
    let mut press = press;
    let (one, two) = run(rt, alloc, &mut press);
    let is_last = press.edition().number() == 101;
    press.end(rt);
    let is_met = one.stale > 0 || two.stale > 0;
    is_last && is_met && is_done(one) && is_done(two)
}

// rule: Publishing
// rule: Stale base
#[test]
fn two_publishers_lose_no_batch(rt: HostRuntime) {
    assert!(rt; publishes(&rt, rt.alloc()));
}
