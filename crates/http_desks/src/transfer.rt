ghost use Rattle.std.specs.Prelude.{◌-◌, ◌/◌, ◌<◌, ◌≤◌, ◌^◌};

use sha2::Sha256;

/// A package that is made block by block: how many full blocks were made, and their running SHA-256.
#[derive(Drop)]
pub struct Transfer {
    pub(crate) size: u64,
    pub(crate) index: u64,
    pub(crate) hasher: Sha256,
    ghost few: { index ≤ (size - 1) / 65536 },
    ghost short: { size < 2 ^ 64 },
}

/// What comes next of a package.
#[derive(Drop)]
pub enum NextBlock {
    /// A full block, and there is more.
    Full(Transfer),
    /// The last block, of so many bytes, with which the digest agrees.
    Last(usize),
    /// No more: a block couldn't be read, or the digest differs.
    Cut,
}
