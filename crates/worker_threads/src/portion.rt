//! The portions of workers.

ghost use Rattle.std.specs.Prelude.{◌≡◌, ◌<◌};
ghost use Rattle.worker_threads.specs.Portions.{portion};

// rule: Portion of a worker
/// How many of so many things a worker gets, by its number from 0 and the number of workers.
pub fn portion_of(worker: u64, workers: u64, all: u64) -> u64
    requires { worker < workers }
    ensures { result ≡ portion all workers worker }
{
    let (worker, workers, all) = (worker as u128, workers as u128, all as u128);
    let after = (worker + 1) * all / workers;
    let before = worker * all / workers;
    (after - before) as u64
}
