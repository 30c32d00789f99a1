//! The SHA-256 of a package, read block by block.

ghost use Rattle.std.specs.Prelude.{◌≡◌, ◌*◌, List, ℕ, length};
ghost use Rattle.http_desks.specs.Downloads.{ReadsFrom, joined_blocks};
ghost use Rattle.package_files.specs.Hashing.{IsHashed};
ghost use Rattle.sha2.specs.Hashers.{Holds256};

use http_desks::{BLOCK, Packages};
use sha2::{Digest, Sha256};

// rule: Hash of a file
/// Computes the SHA-256 of a package of this size; `None` if a block couldn't be read.
///
/// `block` has `BLOCK` bytes.
pub(crate) fn hash_package<P: Packages>(
    packages: &P,
    block: &mut [u8],
    name: &[u8],
    size: u64,
) -> Option<[u8; 32]>
    requires { length block.old ≡ 65536 }
    ensures { IsHashed (P.reads packages.now name.now) size result }
{
    let count = size.saturating_sub(1) / BLOCK;
    let mut hasher = Sha256::new();
    for index in 0..count {
        match packages.read_at(name, index * BLOCK, block) {
            Ok(()) => {}
            Err(_) => return None,
        }
        hasher.update(&*block);
    }
    let at = count * BLOCK;
    let last = &mut block[..(size - at) as usize];
    match packages.read_at(name, at, last) {
        Ok(()) => {}
        Err(_) => return None,
    }
    hasher.update(&*last);
    Some(hasher.finalize())
}
