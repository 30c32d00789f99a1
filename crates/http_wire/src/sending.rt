ghost use Rattle.std.specs.Prelude.{◌≡◌, ◌+◌, ◌≤◌, length, take, is_ok, IfSome, if◌then◌else◌};
ghost use Rattle.http_wire.specs.Sending.{Sends, joined};

use crate::device::Sink;
use values::Failed;

// rule: Sending whole
/// Writes all of the bytes; a failure finds a first part of them written, and not all.
pub fn send<W: Sink>(sink: &mut W, bytes: &[u8]) -> Result<(), Failed>
    ensures sends { Sends (W.contents sink.old) (W.contents sink.new) bytes.now result }
    ensures failed { W.failures sink.new ≡ W.failures sink.old + (if is_ok result then 0 else 1) }
{
    let mut sent = 0;
    while sent < bytes.len() {
        match sink.write(&bytes[sent..]) {
            Ok(count) => sent += count,
            Err(error) => return Err(error),
        }
    }
    Ok(())
}

// Writes the strings one after the other, as `send` does.
pub(crate) fn send_all<W: Sink>(sink: &mut W, texts: &[&[u8]]) -> Result<(), Failed>
    ensures sends { Sends (W.contents sink.old) (W.contents sink.new) (joined texts.now) result }
    ensures failed { W.failures sink.new ≡ W.failures sink.old + (if is_ok result then 0 else 1) }
{
    for text in texts {
        match send(sink, text) {
            Ok(()) => {}
            Err(error) => return Err(error),
        }
    }
    Ok(())
}

// Puts the strings side by side at the front of the block, and returns their length.
//
// Returns `None` if they don't fit.
pub(crate) fn join(block: &mut [u8], texts: &[&[u8]]) -> Option<usize>
    ensures bound { IfSome result (λ end. end ≤ length block.new) }
    ensures joined { IfSome result (λ end. take end block.new ≡ joined texts.now) }
{
    let mut end = 0;
    for text in texts {
        if text.len() > block.len() - end {
            return None;
        }
        block[end..end + text.len()].copy_from_slice(text);
        end += text.len();
    }
    Some(end)
}
