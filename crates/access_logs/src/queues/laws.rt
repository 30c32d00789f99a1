//! What holds of all logs, each law as the contract of a function.

ghost use Rattle.access_logs.specs.Laws.{EndsStay, LogsTwice, LogsOn};

/// States that what was logged, and then written in one more round, was logged.
pub fn logs_on()
    ensures { LogsOn }
{}

/// States that what was logged twice in a row was logged.
pub fn logs_twice()
    ensures { LogsTwice }
{}

/// States that senders have ended that had the other ends of a writer's rings: sending, ending and writing keep which rings
/// they are.
pub fn ends_stay()
    ensures { EndsStay }
{}
