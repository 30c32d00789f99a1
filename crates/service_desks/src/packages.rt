// The packages that a catalogue declares.

ghost use Rattle.std.specs.Prelude.{◌≡◌};
ghost use Rattle.catalogue.specs.Lookups.{declared_of};

use catalogue::{Catalogue, Declared};
use std::str;

/// Finds what a catalogue declares of the package of a name, which may be any bytes.
pub fn find_package(catalogue: &Catalogue, name: &[u8]) -> Option<Declared>
    ensures { result ≡ declared_of catalogue.now name.now }
{
    catalogue.validity();
    match str::from_utf8(name) {
        Ok(name) => catalogue.package(name),
        Err(_) => None,
    }
}
