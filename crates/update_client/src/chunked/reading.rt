ghost use Rattle.std.specs.Prelude.{◌≡◌, ◌+◌, ◌<◌, ◌≤◌, length, IfErr, IfOk, OnErr};
ghost use Rattle.http_wire.specs.Devices.{Given};
ghost use Rattle.update_client.specs.Reads.{IsBroken, failed_reads};

use crate::heads::LinkFault;
use http_wire::Source;

/// How many bytes a read of a reply takes at most.
pub const BLOCK: usize = 16384;

/// Reads once, at most `room` bytes and at most a block, and adds them to those that are held.
pub fn read_more<S: Source>(
    source: &mut S,
    held: &mut Vec<u8>,
    block: &mut [u8],
    room: usize,
) -> Result<usize, LinkFault>
    requires some { 0 < room }
    requires block { 0 < length block.old }
    ensures given { IfOk result (λ count. Given (S.remaining source.old) (S.remaining source.new) held.old.items held.new.items count) }
    ensures bound { IfOk result (λ count. count ≤ room) }
    ensures broken { IfErr result IsBroken }
    ensures kept { OnErr result (held.new.items ≡ held.old.items) }
    ensures failed { S.failures source.new ≡ S.failures source.old + failed_reads result }
    ensures block { length block.new ≡ length block.old }
{
    let room = room.min(block.len());
    let Ok(count) = source.read(&mut block[..room]) else {
        return Err(LinkFault::Read);
    };
    held.extend_from_slice(&block[..count])?;
    Ok(count)
}
