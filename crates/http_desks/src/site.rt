ghost use Rattle.std.specs.Prelude.{◌≡◌};

use crate::clock::Clock;
use crate::package::Packages;
use http_wire::{Failed, Watch};
use std::net::IpAddr;

/// What connections are served with, beside a desk: packages, a clock, and a watch.
#[derive(Clone, Copy)]
pub struct Site<'a, P, C, V> {
    /// The packages that clients download.
    pub packages: &'a P,
    /// The clock of update checks.
    pub clock: &'a C,
    /// What is shown the connections.
    pub watch: &'a V,
}

impl<P: Packages, C, V> Packages for Site<'_, P, C, V> {
    ghost reads = { λ site. P.reads site.packages.now };

    ghost sizes = { λ site. P.sizes site.packages.now };

    fn size(&self, name: &[u8]) -> Option<u64> {
        self.packages.size(name)
    }

    fn read_at(&self, name: &[u8], at: u64, into: &mut [u8]) -> Result<(), Failed> {
        self.packages.read_at(name, at, into)
    }
}

impl<P, C: Clock, V> Clock for Site<'_, P, C, V> {
    ghost tells = { λ site. C.tells site.clock.now };

    fn now(&self) -> u64 {
        self.clock.now()
    }
}

impl<P, C, V: Watch> Watch for Site<'_, P, C, V> {
    fn opens(&self, peer: Option<IpAddr>) {
        self.watch.opens(peer);
    }

    fn begins(&self, waiting: &[u8]) {
        self.watch.begins(waiting);
    }

    fn reads(&self, bytes: &[u8]) {
        self.watch.reads(bytes);
    }

    fn writes(&self, bytes: &[u8]) {
        self.watch.writes(bytes);
    }

    fn ends(&self) {
        self.watch.ends();
    }
}
