ghost use Rattle.std.specs.Prelude.{◌≡◌, ◌+◌, ◌<◌, [], length};
ghost use Rattle.update_client.specs.Reads.{failed_reads};
ghost use Rattle.update_client.specs.Replies.{HeadRead};

use crate::chunked::read_more;
use crate::heads::{LinkFault, MAX_HEAD, Start, read_start};
use http_wire::Source;

// rule: Reply that a link reads
/// Reads until the bytes begin with the head of a reply, or can't.
///
/// `held` is empty, and then has all bytes that were read: the head, and perhaps some of the body.
pub(crate) fn read_head<S: Source>(
    source: &mut S,
    held: &mut Vec<u8>,
    block: &mut [u8],
) -> Result<Start, LinkFault>
    requires empty { held.old.items ≡ [] }
    requires block { 0 < length block.old }
    ensures read { HeadRead (S.remaining source.old) (S.remaining source.new) held.new.items result }
    ensures failed { S.failures source.new ≡ S.failures source.old + failed_reads result }
    ensures block { length block.new ≡ length block.old }
{
    'reads: loop {
        if let Some(start) = read_start(held)? {
            return Ok(start);
        }
        if read_more(source, held, block, MAX_HEAD - held.len())? == 0 {
            return Err(LinkFault::Ended);
        }
    }
}
