// The writer's ends of the senders' rings.

ghost use Rattle.std.specs.Prelude.{◌≡◌, ◌+◌, ◌++◌, ◌≤◌, All, IsFalse, IsTrue, length, map};
ghost use Rattle.std.specs.List.{AllZip};
ghost use Rattle.rtrb.specs.Ring.{SameConsumer, consumer_capacity, known_items, received};
ghost use Rattle.access_logs.specs.Queues.{AreEnds, AreEndsOf, HasReceived, HasWritten, HaveWritten};

use crate::queues::page::Page;
use crate::queues::sender::EndedSender;
use rtrb::Consumer;
use streams::WriteWhole;

// Writes what has come through a ring; whether it was anything.
fn write_ring<W: WriteWhole>(
    ring: &mut Consumer<u8>,
    room: &mut [u8],
    page: &mut Page<'_, W>,
) -> bool
    ensures written { HasWritten (received ring.old) (received ring.new) (W.output page.old.out.now)
        (W.output page.new.out.now) page.old.is_cut page.new.is_cut }
    ensures out { page.new.out.ghost_name ≡ page.old.out.ghost_name }
    ensures none { IsFalse result → received ring.new ≡ received ring.old }
    ensures some { IsTrue result → received ring.new ≡ received ring.old → ⊥ }
    ensures known { length (known_items ring.old) ≤ length room.old →
        length (received ring.old) + length (known_items ring.old) ≤ length (received ring.new) }
    ensures same { SameConsumer ring.old ring.new }
    ensures room { length room.new ≡ length room.old }
{
    let count = ring.pop_partial_slice(room);
    if count == 0 {
        return false;
    }
    page.append(&room[..count]);
    true
}

/// Writes what has come through each ring; whether it was anything.
pub(crate) fn write_rings<W: WriteWhole>(
    rings: &mut [Consumer<u8>],
    room: &mut [u8],
    page: &mut Page<'_, W>,
) -> bool
    ensures written { HaveWritten (map received rings.old) (map received rings.new) (W.output page.old.out.now)
        (W.output page.new.out.now) page.old.is_cut page.new.is_cut }
    ensures out { page.new.out.ghost_name ≡ page.old.out.ghost_name }
    ensures none { IsFalse result → map received rings.new ≡ map received rings.old }
    ensures some { IsTrue result → map received rings.new ≡ map received rings.old → ⊥ }
    ensures same { AllZip SameConsumer rings.old rings.new }
    ensures room { length room.new ≡ length room.old }
{
    let mut found = false;
    for ring in rings.iter_mut() {
        if write_ring(ring, room, page) {
            found = true;
        }
    }
    found
}

// Looks for what is left of what a sender that has ended has sent.
fn look(ring: &mut Consumer<u8>, ended: &mut EndedSender)
    requires ends { AreEnds ended.old.end ring.old }
    ensures all { received ring.new ++ known_items ring.new ≡ ended.old.sent }
    ensures few { length (known_items ring.new) ≤ consumer_capacity ring.new }
    ensures received { received ring.new ≡ received ring.old }
    ensures same { SameConsumer ring.old ring.new }
    ensures ends { AreEnds ended.new.end ring.new }
    ensures sent { ended.new.sent ≡ ended.old.sent }
{
    ended.ring.slots_beside(ring);
    ring.slots_beside(&mut ended.ring);
}

// Writes the rest of what a sender that has ended has sent.
fn write_rest<W: WriteWhole>(
    ring: &mut Consumer<u8>,
    ended: &mut EndedSender,
    room: &mut [u8],
    page: &mut Page<'_, W>,
)
    requires ends { AreEnds ended.old.end ring.old }
    requires room { consumer_capacity ring.old ≤ length room.old }
    ensures written { HasWritten (received ring.old) (received ring.new) (W.output page.old.out.now)
        (W.output page.new.out.now) page.old.is_cut page.new.is_cut }
    ensures out { page.new.out.ghost_name ≡ page.old.out.ghost_name }
    ensures all { received ring.new ≡ ended.old.sent }
    ensures same { SameConsumer ring.old ring.new }
    ensures ends { AreEnds ended.new.end ring.new }
    ensures sent { ended.new.sent ≡ ended.old.sent }
    ensures room { length room.new ≡ length room.old }
{
    look(ring, ended);
    write_ring(ring, room, page);
    look(ring, ended);
}

/// Writes the rest of what the first senders have sent, which have ended, and what has come from the others.
pub(crate) fn write_rests<W: WriteWhole>(
    rings: &mut [Consumer<u8>],
    ended: &mut [EndedSender],
    room: &mut [u8],
    page: &mut Page<'_, W>,
)
    requires ends { AreEndsOf ended.old rings.old }
    requires room { All (λ end. consumer_capacity end ≤ length room.old) rings.old }
    ensures written { HaveWritten (map received rings.old) (map received rings.new) (W.output page.old.out.now)
        (W.output page.new.out.now) page.old.is_cut page.new.is_cut }
    ensures out { page.new.out.ghost_name ≡ page.old.out.ghost_name }
    ensures all { HasReceived (map (λ sender. sender.sent) ended.old) (map received rings.new) }
    ensures same { AllZip SameConsumer rings.old rings.new }
    ensures room { length room.new ≡ length room.old }
{
    for index in 0..rings.len() {
        if index < ended.len() {
            write_rest(&mut rings[index], &mut ended[index], room, page);
        } else {
            write_ring(&mut rings[index], room, page);
        }
    }
}
