// The folder of a server's packages.

ghost use Rattle.std.specs.Prelude.{◌≡◌};

use http_ports::Port;
use package_files::PackageSizes;
use std::marker::PhantomData;
use systems::System;

/// A folder of packages of a system, by their sizes.
#[derive(Drop)]
pub struct SystemFolder<'a, S, P> {
    /// The system.
    pub system: &'a S,
    /// The path of the folder.
    pub path: &'a str,
    ports: PhantomData<P>,
}

impl<'a, S: System<P>, P: Port> SystemFolder<'a, S, P> {
    /// Names the folder at a path of a system.
    pub fn new(system: &'a S, path: &'a str) -> SystemFolder<'a, S, P>
        ensures system { result.system.now ≡ system.now }
        ensures path { result.path.now ≡ path.now }
    {
        SystemFolder {
            system,
            path,
            ports: PhantomData,
        }
    }
}

impl<S: System<P>, P: Port> PackageSizes for SystemFolder<'_, S, P> {
    ghost sizes = { λ folder. (S.edges folder.system.now).sizes folder.path.now };

    fn size_of(&self, name: &[u8]) -> Option<u64> {
        self.system.package_size(self.path, name)
    }
}
