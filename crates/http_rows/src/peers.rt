// The peers of a row.

ghost use Rattle.std.specs.Prelude.{◌≡◌, ℕ, IfSome};
ghost use Rattle.http_ports.specs.Traffic.{unused};
ghost use Rattle.http_memory.specs.Seats.{accepted_in, slots_of};

use crate::lines::{columns, expand};
use http_memory::{Finish, Peer, Script, Seat};
use http_ports::Last;
use std::alloc::Global;

// How a peer behaves, and at which slot.
#[derive(Clone, Copy, Drop)]
struct Manner {
    slot: usize,
    piece: usize,
    room: usize,
    after_input: Finish,
    when_full: Finish,
    is_slow: bool,
}

// Reads a word of a manner: `slot=1`, `piece=7`, `room=20`, `silent`, `broken`, `blocked` or `quick`.
fn read_word(manner: &mut Manner, word: &str) {
    let (name, number) = word.split_once('=').unwrap_or((word, ""));
    let number = number.parse().unwrap_or(0usize);
    match name {
        "slot" => manner.slot = number,
        "piece" => manner.piece = number,
        "room" => manner.room = number,
        "silent" => manner.after_input = Finish::Stays,
        "broken" => manner.after_input = Finish::Fails,
        "blocked" => manner.when_full = Finish::Stays,
        "quick" => manner.is_slow = false,
        _ => {}
    }
}

// The manner of these words: else a peer has the slot 0, sends pieces of this length with a pause after each, ends, and
// takes what it gets.
fn manner_of(words: &str, piece: usize) -> Manner {
    let mut manner = Manner {
        slot: 0,
        piece,
        room: 50_000,
        after_input: Finish::Ends,
        when_full: Finish::Fails,
        is_slow: true,
    };
    for word in words.split(' ') {
        read_word(&mut manner, word);
    }
    manner
}

// Makes the peer that has this input.
fn make_peer(alloc: Global, manner: Manner, input: &str) -> Option<Peer> {
    let input = Vec::from_slice(alloc, expand(alloc, input)?).ok()?;
    let mut peer = Peer::new(alloc, input, manner.piece, manner.room).ok()?;
    peer.after_input = manner.after_input;
    peer.when_full = manner.when_full;
    peer.is_slow = manner.is_slow;
    Some(peer)
}

// Puts the peers of a row after those of their slots.
fn add_peers(alloc: Global, seats: &mut [Seat], row: &str, piece: usize) -> Option<()> {
    for text in row.split('|') {
        let [words, input, _, _, _] = columns(text, ';');
        let manner = manner_of(words, piece);
        let seat = seats.get_mut(manner.slot)?;
        seat.peers.push(make_peer(alloc, manner, input)?).ok()?;
    }
    Some(())
}

// Two slots without peers.
fn free_seats(alloc: Global) -> Option<Vec<Seat>> {
    let mut seats = Vec::new(alloc);
    for _ in 0..2 {
        seats.push(Seat::new(Vec::new(alloc))).ok()?;
    }
    Some(seats)
}

// Twelve turns of two slots, whose digits of the number in base 2 are the slots.
fn turns_of(alloc: Global, order: u32) -> Option<Vec<usize>> {
    let mut turns = Vec::new(alloc);
    let mut left = order;
    for _ in 0..12 {
        turns.push((left % 2) as usize).ok()?;
        left /= 2;
    }
    Some(turns)
}

/// The script of a row, whose peers send pieces of this length, and have their first turns in this order. Its clock begins
/// at 0, and goes on by a second each time that it is asked.
pub(crate) fn script_of(alloc: Global, row: &str, piece: usize, order: u32) -> Option<Script>
    ensures fresh { IfSome result (λ script. (k : ℕ) → slots_of script.seats.items k ≡ unused) }
    ensures none { IfSome result (λ script. accepted_in script.seats.items ≡ 0) }
{
    let turns = turns_of(alloc, order)?;
    let mut seats = free_seats(alloc)?;
    add_peers(alloc, &mut seats, row, piece)?;
    let mut script = Script::new(seats, turns)?;
    script.step = 1;
    Some(script)
}

// How the connection of a peer has ended.
fn end_of(peer: &Peer) -> &'static str {
    if peer.expired {
        return "late";
    }
    match peer.last {
        Last::InputEnded => "ended",
        Last::ReadFailed => "read failed",
        Last::WriteFailed => "write failed",
        Last::Passed => "over",
        Last::Reported => "over",
        _ => "waits",
    }
}

// Whether a peer got what its columns say, and its connection ended so.
fn is_as_said(alloc: Global, peer: &Peer, text: &str) -> Option<bool> {
    let [_, _, how, got, _] = columns(text, ';');
    let got = expand(alloc, got)?;
    Some(end_of(peer) == how && peer.got.as_slice() == got)
}

// Whether the next peer of a row is as it says; `counts` has how many peers of each slot came before.
fn is_next_as_said(
    script: &Script,
    counts: &mut [usize; 2],
    alloc: Global,
    text: &str,
) -> Option<bool> {
    let slot = manner_of(columns(text, ';')[0], 0).slot;
    let count = counts.get_mut(slot)?;
    let peer = script.seats.get(slot)?.peers.get(*count)?;
    *count = count.saturating_add(1);
    is_as_said(alloc, peer, text)
}

/// Whether each peer of a row got what it says, and its connection ended so.
pub(crate) fn are_as_said(script: &Script, alloc: Global, row: &str) -> Option<bool> {
    let mut counts = [0; 2];
    for text in row.split('|') {
        if is_next_as_said(script, &mut counts, alloc, text) != Some(true) {
            return Some(false);
        }
    }
    let are_ended = script
        .seats
        .iter()
        .all(|seat| !seat.is_open && seat.ended == seat.peers.len());
    Some(are_ended)
}
