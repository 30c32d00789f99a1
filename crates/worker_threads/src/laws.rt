//! What holds of all numbers of workers, each law as the contract of a function.

ghost use Rattle.worker_threads.specs.Portions.{PortionsAreAll};

// rule: Portion of a worker
/// States that the portions of all workers add up to what is divided, so that nothing is left out or given out twice.
pub fn portions()
    ensures { PortionsAreAll }
{}
