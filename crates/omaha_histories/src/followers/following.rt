// Looks at a history, again and again.

use crate::followers::looks::look;
use std::alloc::Global;
use std::sync::atomic::{AtomicBool, Ordering};
use std::thread;
use std::time::{Clock, Duration};
use update_client::Connector;

// How many milliseconds a pause may last until it is seen that the server has ended.
const STEP: u64 = 20;

// Rests between two looks, but not much longer than the server serves.
fn rest<R: Clock>(rt: &R, pause: u64, has_ended: &AtomicBool) {
    for _step in 0..pause / STEP {
        if has_ended.load(Ordering::SeqCst) {
            return;
        }
        thread::sleep(rt, Duration::from_millis(STEP));
    }
    thread::sleep(rt, Duration::from_millis(pause % STEP));
}

/// Looks at the history of a server, each time after a pause of so many milliseconds, until the server has ended.
///
/// The address is that of its operator's listener: `HOST:PORT`, or `unix:PATH` for a socket.
/// A look that fails, since the listener isn't there yet or no server of the history replies, changes nothing: the next
/// one finds what this one didn't.
pub fn follow<R: Connector + Clock>(
    rt: &R,
    alloc: Global,
    operator: &str,
    pause: u64,
    has_ended: &AtomicBool,
) {
    for _look in 0..u64::MAX {
        if has_ended.load(Ordering::SeqCst) {
            return;
        }
        look(rt, alloc, operator);
        rest(rt, pause, has_ended);
    }
}
