ghost use Rattle.std.specs.Prelude.{ℕ};

/// Gives the time.
pub trait Clock {
    // the timestamps that it may give
    ghost tells: { Self → ℕ → Type 0 };

    /// Returns how many seconds have passed since 1970.
    fn now(&self) -> u64
        ensures { tells self.now result };
}
