ghost use Rattle.std.specs.Prelude.{◌<◌, ◌^◌, IfSome};

use http_desks::Clock;
use std::time;
use std::time::{SystemTime, UNIX_EPOCH};

/// The system's clock. It gives 0, the start of 1970, if the clock can't be read or is set to a time
/// before.
#[derive(Drop)]
pub struct SystemClock<'a, R: time::Clock> {
    rt: &'a R,
}

impl<'a, R: time::Clock> SystemClock<'a, R> {
    /// Makes the clock of a runtime.
    pub fn new(rt: &'a R) -> SystemClock<'a, R> {
        SystemClock { rt }
    }
}

// How many seconds the clock of a runtime gives, if it gives a time after 1970.
fn seconds_since_1970<R: time::Clock>(rt: &R) -> Option<u64>
    ensures { IfSome result (λ seconds. seconds < 2 ^ 63) }
{
    let now = SystemTime::now(rt).ok()?;
    let since = now.duration_since(UNIX_EPOCH).ok()?;
    Some(since.as_secs())
}

impl<'a, R: time::Clock> Clock for SystemClock<'a, R> {
    ghost tells = { λ _ moment. moment < 2 ^ 63 };

    fn now(&self) -> u64 {
        seconds_since_1970(self.rt).unwrap_or(0)
    }
}
