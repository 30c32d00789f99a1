ghost use Rattle.std.specs.Prelude.{◌≡◌};

use http_desks::Clock;

/// A clock that always gives the same time.
#[derive(Clone, Copy, Drop)]
pub struct FixedClock {
    /// The time, in seconds since 1970.
    pub seconds: u64,
}

impl Clock for FixedClock {
    ghost tells = { λ clock seconds. seconds ≡ clock.seconds };

    fn now(&self) -> u64 {
        self.seconds
    }
}
