ghost use Rattle.std.specs.Prelude.{◌≡◌, ◌≤◌, length, IfOk};
ghost use Rattle.std.specs.Arc.{arc_value};
ghost use Rattle.editions.specs.Editions.{max_batches};

use editions::Edition;
use std::alloc::AllocError;
use std::marker::Model;
use std::sync::Arc;

/// Which edition was published, with its history, which contracts see.
///
/// It keeps that edition in memory until it is dropped.
#[derive(Drop)]
pub struct Receipt {
    edition: Arc<Edition>,
}

impl Model for Receipt {
    ghost use Rattle.std.specs.Arc.{arc_value};
    ghost use Rattle.catalogue.specs.Histories.{History};

    ghost Value = { History };

    ghost view = { λ r. arc_value r.edition };
}

impl Receipt {
    // Fails if the edition has 2^63 owners.
    pub(crate) fn of(edition: &Arc<Edition>) -> Result<Receipt, AllocError>
        ensures { IfOk result (λ receipt. receipt ≡ arc_value edition.now) }
    {
        let edition = Arc::try_clone(edition)?;
        Ok(Receipt { edition })
    }

    pub(crate) fn shown(edition: Arc<Edition>) -> Receipt
        ensures { result ≡ arc_value edition }
    {
        Receipt { edition }
    }

    pub(crate) fn shared(&self) -> &Arc<Edition>
        ensures { arc_value result.now ≡ self.now }
    {
        &self.edition
    }

    /// Returns the number of the edition, 1 to 4096.
    pub fn edition(&self) -> u64
        ensures count { result ≡ length self.now }
        ensures few { length self.now ≤ max_batches }
    {
        self.edition.number()
    }
}
