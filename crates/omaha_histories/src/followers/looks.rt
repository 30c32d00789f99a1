// A look at a history.

ghost use Rattle.std.specs.Prelude.{◌≡◌};
ghost use Rattle.omaha_histories.specs.Looks.{IsLook, found_of};

use std::alloc::Global;
use update_client::{Connector, Limits, Reply};

// How many seconds a post may take. A desk that asks several servers of a history in turn needs some; one that needs more
// adopts the record all the same.
const SECONDS: u64 = 10;

// How many bytes a reply may have, which is a line.
const MAX_LINE: u64 = 65536;

// How many records a history has at most.
const MAX_RECORDS: u64 = 65536;

/// What a look came to.
#[derive(Clone, Copy, Drop)]
pub enum Found {
    /// A record was adopted, and there may be another.
    Adopted,
    /// No further record is there.
    UpToDate,
    /// There was another reply, or none.
    Failed,
}

// What a reply says.
fn found_of(reply: &Reply) -> Found
    ensures { result ≡ found_of reply.now }
{
    if reply.status != 200 {
        return Found::Failed;
    }
    if reply.body.as_slice().starts_with(b"followed ") {
        return Found::Adopted;
    }
    if reply.body.as_slice().starts_with(b"edition ") {
        return Found::UpToDate;
    }
    Found::Failed
}

// Asks for one record.
fn look_once<R: Connector>(rt: &R, alloc: Global, address: &str) -> Found
    ensures { IsLook (R.operated rt.now address.now) result }
{
    let limits = Limits {
        seconds: SECONDS,
        reply: MAX_LINE,
    };
    match rt.operate_at(alloc, address, limits, b"follow") {
        Ok(reply) => found_of(&reply),
        Err(_) => Found::Failed,
    }
}

// rule: Look at a shared history
/// Asks the operator's listener at an address for one record after the other, until there is none, or a post fails.
///
/// The address is `HOST:PORT`, or `unix:PATH` for a socket. It returns what the last post came to; `Adopted` only after
/// as many records as a history has at most.
pub fn look<R: Connector>(rt: &R, alloc: Global, address: &str) -> Found
    ensures { IsLook (R.operated rt.now address.now) result }
{
    for _record in 0..MAX_RECORDS {
        match look_once(rt, alloc, address) {
            Found::Adopted => {}
            Found::UpToDate => return Found::UpToDate,
            Found::Failed => return Found::Failed,
        }
    }
    look_once(rt, alloc, address)
}
