//! Jobs that begin together, or not at all.

ghost use Rattle.std.specs.Prelude.{◌≡◌, ◌≤◌, [], reverse, IfErr, IfOk, vec_capacity, vec_len};
ghost use Rattle.std.specs.List.{AllZip};
ghost use Rattle.worker_threads.specs.Jobs.{EndsAs};
ghost use Rattle.worker_threads.specs.Started.{IsStarted};

use crate::gate::Gate;
use crate::job::Job;
use crate::start::Start;
use crate::started::{Started, join_all};
use std::alloc::Global;
use std::snapshot::Snapshot;
use std::sync::Wait;
use std::thread;
use std::thread::{Promise, Scope, SpawnError, Threads};

// That a thread ends with what its job comes to, or with the job.
#[derive(Drop)]
struct ComesTo<J: Drop>(Snapshot<J>);

impl<J: Job + Drop> Promise<Result<J::End, J>> for ComesTo<J> {
    ghost use Rattle.worker_threads.specs.Jobs.{EndsAs};

    ghost kept_by = { λ promise result. EndsAs J.comes_to promise.0.value result };
}

// Does a job as soon as the jobs may begin, or gives it back.
fn begin<J: Job, G: Gate, R: Wait>(
    rt: &R,
    start: &Start,
    gate: &G,
    piece: usize,
    job: J,
) -> Result<J::End, J>
    ensures { EndsAs J.comes_to job result }
{
    if start.wait(rt) {
        gate.begin(piece, 0);
        Ok(job.work())
    } else {
        Err(job)
    }
}

// Starts the thread of a job; where there can be none, no job may begin.
fn start_job<'s, E, J: Job + Send + Drop + 's, G: Gate + Sync, R: Wait + Sync>(
    scope: &Scope<'s, E>,
    rt: &'s R,
    start: &'s Start,
    gate: &'s G,
    piece: usize,
    job: J,
) -> Started<Result<J::End, J>, ComesTo<J>>
    ensures { IsStarted (EndsAs J.comes_to) (λ promise. promise.0.value) job result }
{
    let promise = ComesTo(Snapshot::of(&job));
    match scope.spawn_with(promise, move || begin(rt, start, gate, piece, job)) {
        Ok(handle) => Started::Thread(handle),
        Err(refused) => {
            start.shut(rt);
            let SpawnError { value } = refused;
            Started::Here(value())
        }
    }
}

// Starts a thread for each job, the last one first.
fn start_jobs<'s, E, J: Job + Send + Drop + 's, G: Gate + Sync, R: Wait + Sync>(
    scope: &Scope<'s, E>,
    rt: &'s R,
    start: &'s Start,
    gate: &'s G,
    jobs: Vec<J>,
    handles: Vec<Started<Result<J::End, J>, ComesTo<J>>>,
) -> Vec<Started<Result<J::End, J>, ComesTo<J>>>
    requires empty { handles.items ≡ [] }
    requires room { vec_len jobs ≤ vec_capacity handles }
    ensures many { vec_len result ≡ vec_len jobs }
    ensures started { AllZip (IsStarted (EndsAs J.comes_to) (λ promise. promise.0.value)) (reverse jobs.items) result.items }
{
    let mut jobs = jobs;
    let mut handles = handles;
    while let Some(job) = jobs.pop() {
        handles.push_reserved(start_job(scope, rt, start, gate, jobs.len(), job));
    }
    handles
}

// Does the caller's own job if the others may begin, or gives it back.
fn work_beside<O: Job, R: Wait>(rt: &R, start: &Start, own: O) -> Result<O::End, O>
    ensures { EndsAs O.comes_to own result }
{
    if start.open(rt) {
        Ok(own.work())
    } else {
        Err(own)
    }
}

// rule: Jobs of threads
/// Gives each job a thread of its own, lets all begin once each has one, does the caller's own job beside them, and
/// returns what each came to, in order.
///
/// `gate` is called once in each thread before its job begins, with the job's number from 0 and 0 tables. If a
/// thread can't be started, no job begins, the own one neither, and each is given back. Without memory for their list
/// nothing is started, and all are given back.
pub fn run_together<J: Job + Send + Drop, O: Job + Drop, G: Gate + Sync, R: Threads + Wait + Sync>(
    rt: &R,
    alloc: Global,
    gate: &G,
    jobs: Vec<J>,
    own: O,
) -> Result<(Vec<Result<J::End, J>>, Result<O::End, O>), (Vec<J>, O)>
    ensures each { IfOk result (λ ended. AllZip (EndsAs J.comes_to) jobs.items ended.0.items) }
    ensures own { IfOk result (λ ended. EndsAs O.comes_to own ended.1) }
    ensures err { IfErr result (λ back. (back.0 ≡ jobs) × (back.1 ≡ own)) }
{
    let start = Start::new();
    let begins = &start;
    thread::scope(
        thread::scope_env(),
        rt,
        |scope| -> Result<(Vec<Result<J::End, J>>, Result<O::End, O>), (Vec<J>, O)>
            ensures each { IfOk result (λ ended. AllZip (EndsAs J.comes_to) jobs.items ended.0.items) }
            ensures own { IfOk result (λ ended. EndsAs O.comes_to own ended.1) }
            ensures err { IfErr result (λ back. (back.0 ≡ jobs) × (back.1 ≡ own)) }
        {
            let Ok(handles) = Vec::with_capacity(alloc, jobs.len()) else {
                return Err((jobs, own));
            };
            let Ok(ends) = Vec::with_capacity(alloc, jobs.len()) else {
                return Err((jobs, own));
            };
            let handles = start_jobs(scope, rt, begins, gate, jobs, handles);
            let own = work_beside(rt, begins, own);
            Ok((join_all(rt, handles, ends), own))
        },
    )
}
