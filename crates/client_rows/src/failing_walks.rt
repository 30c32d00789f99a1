// Walks whose link or installer fails at one call, whichever it is.

use crate::two_steps::walk_in_pieces;
use crate::walks::client_of;
use std::alloc::Global;
use std::process::Abort;

// What a walk of a new client comes to in reads of two bytes, over devices that each fail at the call after so many, if it is
// left with its commits alone, and its next walk, over sound devices, leads to 2.0.
fn walk_twice(alloc: Global, link_calls: u64, installer_calls: u64) -> Option<&'static str> {
    let mut client = client_of(alloc, "0 - -").ok()?;
    let (failed, is_kept) = walk_in_pieces(alloc, &mut client, 2, link_calls, installer_calls);
    let next = walk_in_pieces(alloc, &mut client, 2, u64::MAX, u64::MAX);
    let is_right = is_kept && next == ("whole", true) && client.version() == "2.0";
    is_right.then_some(failed)
}

// Lets each call of a device fail until a walk has no such call, and returns how many there are.
fn count_failures(rt: &impl Abort, alloc: Global, device: &str) -> u64 {
    for call in 0..100 {
        let failed = match device {
            "link" => walk_twice(alloc, call, u64::MAX),
            _ => walk_twice(alloc, u64::MAX, call),
        };
        if failed == Some("whole") {
            return call;
        }
        assert!(rt; failed == Some(device), "{device}, after {call} calls");
    }
    100
}

// rule: Client after a step
// rule: Walk of a client
// Of two files of 3 and 11 bytes: three posts, two that are opened, and 3 and 7 reads; 2 and 6 parts, and two commits.
#[test]
fn walks_on_from_its_last_commit_after_each_failed_call(rt: HostRuntime) {
    assert_eq!(rt; count_failures(&rt, rt.alloc(), "link"), 15);
    assert_eq!(rt; count_failures(&rt, rt.alloc(), "installer"), 10);
}
