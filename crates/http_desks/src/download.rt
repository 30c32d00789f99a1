ghost use Rattle.std.specs.Prelude.{◌≡◌, ◌+◌, ◌-◌, ◌*◌, ◌≤◌, ◌++◌, List, [], ℕ, length, bytes_eq, Some, is_ok, if◌then◌else◌};
ghost use Rattle.sha2.specs.Hashers.{Holds256};
ghost use Rattle.sha2.specs.Sha256.{sha256};
ghost use Rattle.http_desks.specs.Downloads.{Downloads, ReadsFrom, full_blocks, joined_blocks};
ghost use Rattle.http_desks.specs.Transfers.{Follows, IsAt, Makes, package_size};
ghost use Rattle.http_wire.specs.Sending.{Sends};

use crate::package::Packages;
use crate::transfer::{NextBlock, Transfer};
use http_wire::{Failed, Sink, send};
use sha2::{Digest, Sha256};

/// The length of a block, but the last.
pub const BLOCK: u64 = 65536;

// Whether what was hashed has this digest.
fn agrees(hasher: Sha256, hash: &[u8]) -> bool
    ensures { (bytes : List ℕ) → Holds256 hasher bytes → result ≡ bytes_eq (sha256 bytes) hash.now }
{
    let digest = hasher.finalize();
    digest.as_slice() == hash
}

impl Transfer {
    /// Begins with a package of this size, of which nothing was made.
    pub fn new(size: u64) -> Transfer
        ensures size { package_size result ≡ size }
        ensures at { IsAt [] result }
    {
        Transfer {
            size,
            index: 0,
            hasher: Sha256::new(),
        }
    }

    // rule: Block of a package
    /// Makes the next block, at the front of `block`, which has `BLOCK` bytes.
    ///
    /// The last block is given only if the digest of the whole package is `hash`.
    pub fn next<P: Packages>(
        self,
        packages: &P,
        name: &[u8],
        hash: &[u8],
        block: &mut [u8],
    ) -> NextBlock
        requires { length block.old ≡ 65536 }
        ensures makes { (blocks : List (List ℕ)) → IsAt blocks self → ReadsFrom (P.reads packages.now name.now) 0 blocks
            → Makes (P.reads packages.now name.now) (package_size self) hash.now blocks block.new result }
        ensures follows { Follows self result }
    {
        let Transfer {
            size,
            index,
            hasher,
        } = self;
        let mut hasher = hasher;
        let at = index * BLOCK;
        if index < size.saturating_sub(1) / BLOCK {
            return match packages.read_at(name, at, block) {
                Ok(()) => {
                    hasher.update(&*block);
                    NextBlock::Full(Transfer {
                        size,
                        index: index + 1,
                        hasher,
                    })
                }
                Err(_) => NextBlock::Cut,
            };
        }
        let count = (size - at) as usize;
        let last = &mut block[..count];
        match packages.read_at(name, at, last) {
            Ok(()) => {}
            Err(_) => return NextBlock::Cut,
        }
        hasher.update(&*last);
        if agrees(hasher, hash) {
            NextBlock::Last(count)
        } else {
            NextBlock::Cut
        }
    }
}

// rule: Download of a package
/// Writes a package of this size block by block, the last block only if the digest agrees.
///
/// `block` has `BLOCK` bytes. Returns whether the whole package was written; it isn't if a block
/// couldn't be read, or the digest differs. A failure finds a first part of it written.
pub fn send_package<W: Sink, P: Packages>(
    sink: &mut W,
    block: &mut [u8],
    packages: &P,
    name: &[u8],
    size: u64,
    hash: &[u8],
) -> Result<bool, Failed>
    requires { length block.old ≡ 65536 }
    ensures downloads { Downloads (P.reads packages.now name.now) size hash.now
        (W.contents sink.old) (W.contents sink.new) result }
    ensures failed { W.failures sink.new ≡ W.failures sink.old + (if is_ok result then 0 else 1) }
{
    let mut transfer = Transfer::new(size);
    'turns: loop {
        match transfer.next(packages, name, hash, block) {
            NextBlock::Full(next) => {
                match send(sink, block) {
                    Ok(()) => {}
                    Err(error) => return Err(error),
                }
                transfer = next;
            }
            NextBlock::Last(count) => {
                return match send(sink, &block[..count]) {
                    Ok(()) => Ok(true),
                    Err(error) => Err(error),
                };
            }
            NextBlock::Cut => return Ok(false),
        }
    }
}
