// Calls that run out of memory: what is then as before, and that the same call with memory succeeds.
//
// In the gate no allocation fails. `make allocations` lets each one of a test fail in turn, so of two tries one fails at most.

use crate::two_steps::walk_in_pieces;
use crate::walks::client_of;
use std::alloc::Global;
use update_client::Client;

// Whether one of two tries came to what it should, and none to anything else; `None` is a try that ran out of memory.
fn are_right(first: Option<bool>, second: Option<bool>) -> bool {
    first != Some(false) && second != Some(false) && (first.is_some() || second.is_some())
}

// Whether a client that begins as it is walks to 2.0; `None` if it ran out of memory and was left at its last commit.
fn walks_from(alloc: Global, client: &mut Client) -> Option<bool> {
    match walk_in_pieces(alloc, client, 65536, u64::MAX, u64::MAX) {
        ("whole", _) => Some(client.version() == "2.0"),
        ("link" | "installer" | "memory", true) => None,
        _ => Some(false),
    }
}

// Whether one of two walks of a client ends at 2.0, the second from where the first ended.
fn walks(alloc: Global) -> Option<bool> {
    let mut client = client_of(alloc, "0 - -").ok()?;
    let first = walks_from(alloc, &mut client);
    Some(are_right(first, walks_from(alloc, &mut client)) && client.version() == "2.0")
}

// rule: Walk of a client
// rule: Client after a step
#[test]
fn client_walk_without_memory(rt: HostRuntime) {
    assert!(rt; are_right(walks(rt.alloc()), walks(rt.alloc())));
}
