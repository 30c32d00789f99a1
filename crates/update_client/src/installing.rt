//! Stages one download, and commits it if it is what was offered.

ghost use Rattle.std.specs.Prelude.{◌≡◌, ◌+◌, ◌<◌, ◌≤◌, ◌++◌, ◌^◌, ◌==◌, [], List, ℕ, take, length, bytes_eq, IfOk, is_ok, if◌then◌else◌};
ghost use Rattle.sha2.specs.Hashers.{Holds256};
ghost use Rattle.sha2.specs.Sha256.{sha256};
ghost use Rattle.update_client.specs.Installing.{IsStaged, Installs, Rejects, link_failures, installer_failures};

use crate::fault::Fault;
use crate::installer::{Installer, Step};
use crate::link::Link;
use sha2::{Digest, Sha256};
use values::Failed;

// Whether what was hashed has this digest.
fn agrees(hasher: Sha256, hash: &[u8; 32]) -> bool
    ensures { (bytes : List ℕ) → Holds256 hasher bytes → result ≡ bytes_eq (sha256 bytes) hash.now }
{
    let digest = hasher.finalize();
    digest.as_slice() == hash.as_slice()
}

// Reads some bytes into the front of the block: at most one more than are left of the offered size.
fn read_some<L: Link>(link: &mut L, block: &mut [u8], left: u64) -> Result<usize, Failed>
    requires { 0 < length block.old }
    ensures bound { IfOk result (λ count. count ≤ length block.new) }
    ensures bytes { IfOk result (λ count. L.received link.new
        ≡ L.received link.old ++ take count block.new) }
    ensures end { IfOk result (λ count. count ≡ 0 → L.ended link.new) }
    ensures posts { L.posts link.new ≡ L.posts link.old }
    ensures opened { L.opened link.new ≡ L.opened link.old }
    ensures failed { L.failures link.new ≡ L.failures link.old + (if is_ok result then 0 else 1) }
{
    if left < block.len() as u64 {
        let room = left as usize + 1;
        link.read(&mut block[..room])
    } else {
        link.read(block)
    }
}

// Stages a download that was just opened, of this size and hash.
fn stage<L: Link, I: Installer>(
    link: &mut L,
    installer: &mut I,
    block: &mut [u8],
    size: u64,
    hash: &[u8; 32],
) -> Result<(), Fault>
    requires room { 0 < length block.old }
    requires fresh { L.received link.old ≡ [] }
    requires empty { I.staged installer.old ≡ [] }
    ensures staged { IsStaged size hash.now (L.received link.new) (L.ended link.new)
        (I.staged installer.new) result }
    ensures commits { I.commits installer.new ≡ I.commits installer.old }
    ensures posts { L.posts link.new ≡ L.posts link.old }
    ensures opened { L.opened link.new ≡ L.opened link.old }
    ensures link_failed { L.failures link.new ≡ L.failures link.old + link_failures result }
    ensures installer_failed { I.failures installer.new
        ≡ I.failures installer.old + installer_failures result }
    ensures rejected { I.rejected installer.new ≡ I.rejected installer.old }
    ensures kept { (first : _) → I.holds_since first installer.old → I.holds_since first installer.new }
{
    let mut hasher = Sha256::new();
    let mut done: u64 = 0;
    'reads: loop {
        let left = size - done;
        let Ok(count) = read_some(link, block, left) else {
            return Err(Fault::Link);
        };
        if count == 0 {
            break;
        }
        if count as u64 > left {
            return Err(Fault::BadLength);
        }
        let bytes = &block[..count];
        let Ok(()) = installer.put(bytes) else {
            return Err(Fault::Install);
        };
        hasher.update(bytes);
        done += count as u64;
    }
    if done < size {
        return Err(Fault::BadLength);
    }
    if !agrees(hasher, hash) {
        return Err(Fault::BadHash);
    }
    Ok(())
}

// Drops what is staged, for that reason.
fn give_up<I: Installer>(installer: &mut I, fault: Fault) -> Fault
    ensures same { result ≡ fault }
    ensures staged { I.staged installer.new ≡ [] }
    ensures commits { I.commits installer.new ≡ I.commits installer.old }
    ensures rejected { I.rejected installer.new ≡ I.rejected installer.old }
    ensures failed { I.failures installer.new ≡ I.failures installer.old }
    ensures kept { (first : _) → I.holds_since first installer.old → I.holds_since first installer.new }
{
    installer.discard();
    fault
}

// rule: Download that is installed
/// Stages the download that was just opened on the link, and commits it if it is what was offered.
///
/// It was offered with a length of `size` bytes and the SHA-256 `hash`. The bytes are read into `block`,
/// which is not empty, and are handed to the installer and hashed as they come; no more than `size` bytes
/// are handed over, and at most one more is read. Returns `Link` or `Install` if a call failed,
/// `BadLength` if the download ends early or has more bytes than offered, `BadHash` if its SHA-256
/// differs. After an error nothing is staged, and nothing was committed.
pub fn install<L: Link, I: Installer>(
    link: &mut L,
    installer: &mut I,
    block: &mut [u8],
    step: &Step,
    hash: &[u8; 32],
) -> Result<(), Fault>
    requires room { 0 < length block.old }
    requires fresh { L.received link.old ≡ [] }
    requires empty { I.staged installer.old ≡ [] }
    ensures installs { Installs step.now hash.now (L.received link.new) (L.ended link.new)
        (I.commits installer.old) (I.commits installer.new) result }
    ensures staged { I.staged installer.new ≡ [] }
    ensures link { (L.posts link.new ≡ L.posts link.old) × (L.opened link.new ≡ L.opened link.old)
        × (L.failures link.new ≡ L.failures link.old + link_failures result) }
    ensures installer_failed { I.failures installer.new
        ≡ I.failures installer.old + installer_failures result }
    ensures rejected { Rejects (λ tried. tried ≡ step.now) (I.rejected installer.old)
        (I.rejected installer.new) (installer_failures result) }
    ensures kept { (first : _) → I.holds_since first installer.old → I.holds_since first installer.new }
{
    if let Err(fault) = stage(link, installer, block, step.bytes, hash) {
        return Err(give_up(installer, fault));
    }
    let Ok(()) = installer.commit(step) else {
        return Err(give_up(installer, Fault::Install));
    };
    Ok(())
}
