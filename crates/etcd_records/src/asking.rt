// Asking etcd's servers until one replies.

ghost use Rattle.std.specs.Prelude.{◌≡◌, ◌++◌, List};
ghost use Rattle.etcd_records.specs.declared.exchange.Exchange.{Exchange};
ghost use Rattle.etcd_records.specs.Asking.{IsHeard, heard_of, seen_by};

use crate::gateway::{Gateway, GatewayFault, Response};
use crate::headers::{Header, header_of};
use crate::replies::{Said, hear};
use kept_records::{Cause, Unreached};
use serde_json::Value;
use std::alloc::Global;

/// What came of a request.
#[derive(Drop)]
pub(crate) enum Asked {
    /// Etcd's reply, and whether an attempt before it may have been carried out.
    Replied(Value, bool),
    /// No attempt brought a reply, why, and whether one may have been carried out.
    Unreplied(Cause, bool),
    /// An allocation failed.
    Memory,
}

// Goes on to another server after a reply that doesn't count; after anything else the gateway does so itself.
fn pass_over<G: Gateway>(gateway: &mut G, came: &Result<Response, GatewayFault>)
    ensures { G.exchanges gateway.new ≡ G.exchanges gateway.old }
{
    match came {
        Ok(response) if response.status == 200 => gateway.go_on(),
        _ => {}
    }
}

// rule: Attempts of a request
/// Posts a request until etcd replies, at most so many times. A reply that doesn't count after the last one that did is none.
pub(crate) fn ask<G: Gateway>(
    gateway: &mut G,
    alloc: Global,
    attempts: u32,
    seen: Option<Header>,
    path: &str,
    body: &[u8],
) -> Asked
    ensures { (done : List Exchange) × (G.exchanges gateway.new ≡ G.exchanges gateway.old ++ done)
        × IsHeard attempts seen path.now body.now done (heard_of result) }
{
    let mut cause = Cause::Unreachable(Unreached::NoReply);
    let mut in_doubt = false;
    for _attempt in 0..attempts {
        let came = gateway.post(alloc, path, body);
        let Ok(said) = hear(alloc, seen, &came) else {
            return Asked::Memory;
        };
        match said {
            Said::Reply(reply) => return Asked::Replied(reply, in_doubt),
            Said::Missed(why, may_be_done) => {
                pass_over(gateway, &came);
                cause = why;
                in_doubt = in_doubt || may_be_done;
            }
        }
    }
    Asked::Unreplied(cause, in_doubt)
}

// rule: Replies of one cluster
/// Returns the header of the last reply that counts, after what was heard.
pub(crate) fn seen_by(seen: Option<Header>, asked: &Asked) -> Option<Header>
    ensures { result ≡ seen_by seen (heard_of asked.now) }
{
    match asked {
        Asked::Replied(reply, _) => header_of(reply),
        _ => seen,
    }
}
