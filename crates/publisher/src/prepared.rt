ghost use Rattle.std.specs.Prelude.{◌≡◌, length, IfOk};
ghost use Rattle.std.specs.Arc.{arc_value};

use crate::receipt::Receipt;
use editions::Edition;
use std::alloc::AllocError;
use std::marker::Model;
use std::sync::Arc;

/// An edition that is made and not yet shown, which contracts see as its history.
#[derive(Drop)]
pub struct Prepared {
    edition: Arc<Edition>,
}

impl Model for Prepared {
    ghost use Rattle.std.specs.Arc.{arc_value};
    ghost use Rattle.catalogue.specs.Histories.{History};

    ghost Value = { History };

    ghost view = { λ p. arc_value p.edition };
}

impl Prepared {
    pub(crate) fn of(edition: Arc<Edition>) -> Prepared
        ensures { result ≡ arc_value edition }
    {
        Prepared { edition }
    }

    // Fails if the edition has 2^63 owners.
    pub(crate) fn share(&self) -> Result<Arc<Edition>, AllocError>
        ensures { IfOk result (λ edition. arc_value edition ≡ self.now) }
    {
        Arc::try_clone(&self.edition)
    }

    pub(crate) fn into_receipt(self) -> Receipt
        ensures { result ≡ self }
    {
        let Prepared { edition } = self;
        Receipt::shown(edition)
    }

    /// Returns the number that the edition will have, 1 to 4096.
    pub fn number(&self) -> u64
        ensures { result ≡ length self.now }
    {
        self.edition.number()
    }
}
