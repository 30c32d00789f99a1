//! Threads that were started, and what they come to.

ghost use Rattle.std.specs.Prelude.{◌≡◌, ◌≤◌, [], reverse, vec_capacity, vec_len};
ghost use Rattle.std.specs.List.{AllZip};
ghost use Rattle.worker_threads.specs.Started.{Comes};

use std::thread::{Promise, PromisedHandle, Threads};

/// A thread; or what was to be its result, if there could be none.
#[derive(Drop)]
pub(crate) enum Started<T: Drop, P: Promise<T> + Drop> {
    /// The thread.
    Thread(PromisedHandle<T, P>),
    /// The result.
    Here(T),
}

// Waits for a thread, if there is one.
fn join<T: Drop, P: Promise<T> + Drop, R: Threads>(rt: &R, started: Started<T, P>) -> T
    ensures { Comes P.kept_by started result }
{
    match started {
        Started::Thread(handle) => handle.join(rt),
        Started::Here(result) => result,
    }
}

/// Waits for all threads, the last one first.
pub(crate) fn join_all<T: Drop, P: Promise<T> + Drop, R: Threads>(
    rt: &R,
    handles: Vec<Started<T, P>>,
    results: Vec<T>,
) -> Vec<T>
    requires empty { results.items ≡ [] }
    requires room { vec_len handles ≤ vec_capacity results }
    ensures { AllZip (Comes P.kept_by) (reverse handles.items) result.items }
{
    let mut handles = handles;
    let mut results = results;
    while let Some(started) = handles.pop() {
        results.push_reserved(join(rt, started));
    }
    results
}
