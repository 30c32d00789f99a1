// The packages of a site, at one time.

use http_desks::{Clock, Packages};
use http_wire::Failed;

// A site, and a timestamp that was given for a connection.
#[derive(Drop)]
pub(crate) struct At<'a, Z> {
    pub(crate) site: &'a Z,
    pub(crate) seconds: u64,
}

impl<Z: Packages> Packages for At<'_, Z> {
    ghost reads = { λ at. Z.reads at.site.now };

    ghost sizes = { λ at. Z.sizes at.site.now };

    fn size(&self, name: &[u8]) -> Option<u64> {
        self.site.size(name)
    }

    fn read_at(&self, name: &[u8], at: u64, into: &mut [u8]) -> Result<(), Failed> {
        self.site.read_at(name, at, into)
    }
}

impl<Z> Clock for At<'_, Z> {
    ghost use Rattle.std.specs.Prelude.{◌≡◌};

    ghost tells = { λ at seconds. seconds ≡ at.seconds };

    fn now(&self) -> u64 {
        self.seconds
    }
}
