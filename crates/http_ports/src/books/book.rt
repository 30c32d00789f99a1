ghost use Rattle.std.specs.Prelude.{◌≡◌, ◌≢◌, ◌<◌, ◌+◌, ℕ, None, [], IfOk, option_map, vec_len};
ghost use Rattle.http_ports.specs.Loops.{kept_at};
ghost use Rattle.http_ports.specs.Ports.{Closes, expiring};
ghost use Rattle.http_ports.specs.Traffic.{Changes, Elsewhere, IsOpen, Traffic, no_traffic, timing, with_open};
ghost use Rattle.http_ports.specs.Books.{accepted_in, changed_by, is_waiting, kept_waits, slot_waits, slots_after};

use crate::books::moves::{Change, Move};
use crate::books::place::Place;
use crate::timestamp::trace_waiting;
use std::alloc::{AllocError, Global};
use std::mem;
use streams::Trace;

/// What is kept of each slot of a port, and what has happened there.
#[derive(Drop)]
pub struct Book<S: Drop> {
    /// A place for each slot: that of its connection, if it has one.
    pub places: Vec<Option<Place<S>>>,
    /// What has happened, in order.
    pub moves: Trace<Move>,
    ghost tied: { (k : ℕ) → kept_waits (kept_at places.items k) ≡ slot_waits (slots_after moves k) },
}

// So many places, without a connection.
fn empty_places<S: Drop>(alloc: Global, slots: usize) -> Result<Vec<Option<Place<S>>>, AllocError>
    ensures many { IfOk result (λ places. vec_len places ≡ slots) }
    ensures empty { IfOk result (λ places. (k : ℕ) → kept_at places.items k ≡ None) }
{
    let mut places = Vec::with_capacity(alloc, slots)?;
    for _ in 0..slots {
        let Ok(()) = places.push(None) else {
            return Err(AllocError);
        };
    }
    Ok(places)
}

// Keeps something else of a slot, and returns what was kept.
fn put<S: Drop>(
    places: &mut Vec<Option<Place<S>>>,
    slot: usize,
    place: Option<Place<S>>,
) -> Option<Place<S>>
    requires { slot < vec_len places.old }
    ensures took { result ≡ kept_at places.old.items slot }
    ensures put { kept_at places.new.items slot ≡ place }
    ensures elsewhere { (k : ℕ) → k ≢ slot → kept_at places.new.items k ≡ kept_at places.old.items k }
    ensures len { vec_len places.new ≡ vec_len places.old }
{
    mem::replace(&mut places[slot], place)
}

// Keeps of a slot's connection whether it waits.
fn set_waits<S: Drop>(places: &mut Vec<Option<Place<S>>>, slot: usize, waits: bool)
    requires { slot < vec_len places.old }
    ensures set { kept_waits (kept_at places.new.items slot) ≡ option_map (λ _. waits) (kept_at places.old.items slot) }
    ensures elsewhere { (k : ℕ) → k ≢ slot → kept_at places.new.items k ≡ kept_at places.old.items k }
    ensures len { vec_len places.new ≡ vec_len places.old }
{
    if let Some(place) = put(places, slot, None) {
        let place = Place {
            stream: place.stream,
            waits,
        };
        let _ = put(places, slot, Some(place));
    }
}

impl<S: Drop> Book<S> {
    /// Makes the book of so many slots, at which nothing has happened.
    pub fn new(alloc: Global, slots: usize) -> Result<Book<S>, AllocError>
        ensures fresh { IfOk result (λ book. book.moves ≡ []) }
        ensures many { IfOk result (λ book. vec_len book.places ≡ slots) }
    {
        let places = empty_places(alloc, slots)?;
        Ok(Book {
            places,
            moves: Trace::new(),
        })
    }

    /// Returns how many slots there are.
    pub fn capacity(&self) -> usize
        ensures { result ≡ vec_len self.now.places }
    {
        self.places.len()
    }

    /// Borrows the stream of a slot's connection.
    pub fn stream(&self, slot: usize) -> Option<&S>
        requires live { IsOpen (slots_after self.now.moves slot) }
        ensures { option_map (λ stream. stream.now) result
            ≡ option_map (λ place. place.stream) (kept_at self.now.places.items slot) }
    {
        match &self.places[slot] {
            Some(place) => Some(&place.stream),
            None => None,
        }
    }

    /// Whether a slot has a connection, and whether that waits for its peer.
    pub fn waits(&self, slot: usize) -> Option<bool>
        requires within { slot < vec_len self.now.places }
        ensures { result ≡ slot_waits (slots_after self.now.moves slot) }
    {
        match &self.places[slot] {
            Some(place) => Some(place.waits),
            None => None,
        }
    }

    // rule: Traffic of a book
    /// Records that a connection was accepted at a slot that has none.
    pub fn accept(&mut self, slot: usize, stream: S)
        requires within { slot < vec_len self.old.places }
        ensures accepts { slots_after self.new.moves slot ≡ with_open (slots_after self.old.moves slot) no_traffic }
        ensures elsewhere { Elsewhere slot (slots_after self.old.moves) (slots_after self.new.moves) }
        ensures accepted { accepted_in self.new.moves ≡ accepted_in self.old.moves + 1 }
        ensures capacity { vec_len self.new.places ≡ vec_len self.old.places }
    {
        let place = Place {
            stream,
            waits: false,
        };
        let _ = put(&mut self.places, slot, Some(place));
        self.moves.push(&Move::Accepted(slot));
    }

    // rule: Traffic of a book
    /// Records a change of a slot's connection, and whether it waits then.
    pub fn change(&mut self, slot: usize, change: Change, waits: bool)
        requires live { IsOpen (slots_after self.old.moves slot) }
        requires waiting { (traffic : Traffic) → is_waiting (changed_by change traffic).last ≡ waits }
        ensures changes { Changes slot (changed_by change) (slots_after self.old.moves) (slots_after self.new.moves) }
        ensures accepted { accepted_in self.new.moves ≡ accepted_in self.old.moves }
        ensures capacity { vec_len self.new.places ≡ vec_len self.old.places }
    {
        set_waits(&mut self.places, slot, waits);
        self.moves.push(&Move::Changed(slot, change));
    }

    /// Records that the time of a slot's connection is up; it waits then if it did before.
    pub fn expire(&mut self, slot: usize)
        ensures changes { Changes slot expiring (slots_after self.old.moves) (slots_after self.new.moves) }
        ensures accepted { accepted_in self.new.moves ≡ accepted_in self.old.moves }
        ensures capacity { vec_len self.new.places ≡ vec_len self.old.places }
    {
        self.moves.push(&Move::Changed(slot, Change::Expired));
    }

    /// Records that a slot's connection was given a timestamp, while these bytes waited, if a message could begin with
    /// them; it waits then if it did before.
    pub fn note_time(&mut self, slot: usize, seconds: u64, waiting: Option<&[u8]>)
        ensures changes { Changes slot (timing seconds (option_map (λ bytes. bytes.now) waiting.entry)) (slots_after self.old.moves) (slots_after self.new.moves) }
        ensures accepted { accepted_in self.new.moves ≡ accepted_in self.old.moves }
        ensures capacity { vec_len self.new.places ≡ vec_len self.old.places }
    {
        let timed = Change::Timed(seconds, trace_waiting(waiting));
        self.moves.push(&Move::Changed(slot, timed));
    }

    // rule: Traffic of a book
    /// Records that a slot's connection was closed, and gives its stream.
    pub fn close(&mut self, slot: usize) -> Option<S>
        requires live { IsOpen (slots_after self.old.moves slot) }
        ensures stream { result ≡ option_map (λ place. place.stream) (kept_at self.old.places.items slot) }
        ensures closes { Closes slot (slots_after self.old.moves) (slots_after self.new.moves) }
        ensures accepted { accepted_in self.new.moves ≡ accepted_in self.old.moves }
        ensures capacity { vec_len self.new.places ≡ vec_len self.old.places }
    {
        let closed = put(&mut self.places, slot, None);
        self.moves.push(&Move::Closed(slot));
        closed.map(|place| place.stream)
    }
}
