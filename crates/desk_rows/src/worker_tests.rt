// The desk of a worker, over a till in memory that grants nothing.

use crate::tills::EmptyTill;
use fixtures::{CHAINED, open_profile};
use http_desks::{Answer, Desk, DeskStatus, Off};
use publisher::View;
use service_desks::Worker;
use std::sync::Wait;
use std::thread::Threads;

// The update check of a client at 1.0.
const CHECK: &[u8] =
    b"{\"request\":{\"app\":[{\"appid\":\"demo\",\"cohort\":\"stable:0\",\"packages\":{\"package\":[{\"fp\":\"1.1111111111111111111111111111111111111111111111111111111111111111\"}]},\"updatecheck\":{},\"version\":\"1.0\"}],\"protocol\":\"3.1\"}}";

const BUSY: &[u8] =
    b")]}'\n{\"response\":{\"app\":[{\"appid\":\"demo\",\"cohort\":\"stable:0\",\"cohortname\":\"stable\",\"status\":\"ok\",\"updatecheck\":{\"status\":\"error-internal\"}}],\"daystart\":{\"elapsed_days\":6940,\"elapsed_seconds\":3661},\"protocol\":\"3.1\"}}";

// Whether a reply offers nothing, since no mirror grants it.
fn is_busy(answer: &Result<Answer, Off>) -> bool {
    match answer {
        Ok(
            Answer {
                status: DeskStatus::Success,
                body,
            },
        ) => body.as_slice() == BUSY,
        _ => false,
    }
}

// Whether a worker asks once, for 300 bytes, and replies that it offers nothing.
fn rejects<R: Wait + AllocGlobal>(rt: &R, view: View) -> bool {
    let mut worker = Worker::new(rt, view, EmptyTill::new());
    let answer = worker.answer(CHECK, 1767229261);
    let (_view, till) = worker.into_parts();
    is_busy(&answer) && (till.count, till.last) == (1, 300)
}

fn opens_and_rejects<R: Threads + Wait + AllocGlobal>(rt: &R) -> bool {
    let Ok((press, views)) = open_profile(rt, rt.alloc(), CHAINED, 1) else {
        return false;
    };
    let mut views = views;
    let rejects = match views.pop() {
        Some(view) => rejects(rt, view),
        None => false,
    };
    press.end(rt);
    rejects
}

// rule: Reply of a worker
// rule: Outcome of an update check
#[test]
fn a_worker_offers_nothing_that_its_till_rejects(rt: HostRuntime) {
    assert!(rt; opens_and_rejects(&rt));
}
