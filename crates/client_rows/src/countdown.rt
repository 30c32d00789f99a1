/// Counts calls down to the one that fails.
#[derive(Drop)]
pub(crate) struct Countdown {
    left: u64,
}

impl Countdown {
    /// The call that fails is the one after so many.
    pub(crate) fn new(left: u64) -> Countdown {
        Countdown { left }
    }

    /// Counts a call, and returns whether it fails.
    pub(crate) fn is_over(&mut self) -> bool {
        if self.left == 0 {
            self.left = u64::MAX;
            return true;
        }
        self.left -= 1;
        false
    }
}
