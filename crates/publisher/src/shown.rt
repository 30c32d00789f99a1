//! What the two copies of `left_right` hold.

ghost use Rattle.std.specs.Prelude.{◌≡◌, MatchResult};
ghost use Rattle.std.specs.Arc.{arc_value};

use editions::Edition;
use left_right::Absorb;
use std::alloc::AllocError;
use std::sync::Arc;

/// The edition that a copy shows; both copies own the same one.
#[derive(Drop)]
pub struct Shown {
    pub edition: Arc<Edition>,
}

// An operation is the next edition as a whole, so one that was never shown counts for nothing after a later one.
impl Absorb<Arc<Edition>> for Shown {
    type State = Edition;

    ghost state = { λ s. arc_value s.edition };

    ghost applied = { λ _ next. arc_value next };

    fn absorb_first(&mut self, next: &Arc<Edition>, _other: &Shown) -> Result<(), AllocError> {
        self.edition = Arc::try_clone(next)?;
        Ok(())
    }

    fn absorb_second(&mut self, next: Arc<Edition>, _other: &Shown) -> Result<(), Arc<Edition>> {
        self.edition = next;
        Ok(())
    }
}
