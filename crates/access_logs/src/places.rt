ghost use Rattle.std.specs.Prelude.{◌≡◌, ◌≢◌, ◌<◌, ℕ, IfOk, None, Some, vec_len};
ghost use Rattle.http_ports.specs.Loops.{kept_at};

use crate::seen::Seen;
use std::alloc::{AllocError, Global};
use std::marker::Model;
use std::mem;

/// Room for what is seen of each of so many slots, of which nothing was seen yet.
#[derive(Drop)]
pub struct Places {
    pub(crate) seens: Vec<Option<Seen>>,
}

impl Model for Places {
    ghost use Rattle.std.specs.Prelude.{◌≡◌, ℕ, None, vec_len};
    ghost use Rattle.http_ports.specs.Loops.{kept_at};

    ghost Value = { ℕ };

    ghost view = { λ places. vec_len places.seens };

    ghost invariant = { λ places. (k : ℕ) → kept_at places.seens.items k ≡ None };
}

impl Places {
    /// Makes room for so many slots.
    pub fn new(alloc: Global, slots: usize) -> Result<Places, AllocError>
        ensures { IfOk result (λ places. places ≡ slots) }
    {
        let seens = empty_places(alloc, slots)?;
        Ok(Places { seens })
    }
}

// So many places, without a connection.
fn empty_places(alloc: Global, slots: usize) -> Result<Vec<Option<Seen>>, AllocError>
    ensures many { IfOk result (λ places. vec_len places ≡ slots) }
    ensures empty { IfOk result (λ places. (k : ℕ) → kept_at places.items k ≡ None) }
{
    let mut places = Vec::with_capacity(alloc, slots)?;
    for _ in 0..slots {
        let Ok(()) = places.push(None) else {
            return Err(AllocError);
        };
    }
    Ok(places)
}

/// Keeps something else of a slot, and returns what was kept.
pub(crate) fn put(places: &mut Vec<Option<Seen>>, slot: usize, seen: Option<Seen>) -> Option<Seen>
    requires { slot < vec_len places.old }
    ensures took { result ≡ kept_at places.old.items slot }
    ensures put { kept_at places.new.items slot ≡ seen }
    ensures elsewhere { (k : ℕ) → k ≢ slot → kept_at places.new.items k ≡ kept_at places.old.items k }
    ensures len { vec_len places.new ≡ vec_len places.old }
{
    mem::replace(&mut places[slot], seen)
}

/// Keeps what is seen of a slot's connection.
pub(crate) fn set(places: &mut Vec<Option<Seen>>, slot: usize, seen: Seen)
    requires { slot < vec_len places.old }
    ensures set { kept_at places.new.items slot ≡ Some seen }
    ensures elsewhere { (k : ℕ) → k ≢ slot → kept_at places.new.items k ≡ kept_at places.old.items k }
    ensures len { vec_len places.new ≡ vec_len places.old }
{
    let _ = put(places, slot, Some(seen));
}
