// The reply to a request.

ghost use Rattle.std.specs.Prelude.{◌≡◌, IfOk, OnErr};
ghost use Rattle.editions.specs.Editions.{content_of};
ghost use Rattle.par_tables.specs.Caches.{AreOwnTables};
ghost use Rattle.replies.specs.Answering.{HasBegun, IsReply};
ghost use Rattle.replies.specs.Asking.{GrantsFirst};

use crate::asked::Asked;
use crate::asking::ask_each;
use crate::counting::count_replied;
use crate::planning::plan_with;
use crate::rendering::render;
use editions::Edition;
use mirror_ledger::Till;
use par_tables::TableCache;
use std::alloc::{AllocError, Global};
use std::sync::Wait;
use tallies::CountChecks;

// rule: Reply to a request
/// Replies to a request from an edition, at a time in seconds since 1 January 1970 UTC, with the bytes that a till
/// grants.
///
/// The till is asked for each payload that the reply offers, or would if a mirror had granted it, once and in the order
/// of the apps. If memory runs out a first part of the asks may have been made. If the till is alone, which is if
/// nothing else is granted on its mirrors, each payload is offered from the first mirror with room. The tables of
/// pinned clients' tracks that are kept are of the same edition; the reply is the same without them. The counter is shown
/// what each update check came to once the reply is made.
pub fn reply_to<T: Till, R: Wait, C: CountChecks>(
    rt: &R,
    alloc: Global,
    edition: &Edition,
    kept: &mut TableCache,
    till: &mut T,
    counter: &C,
    asked: &Asked<'_>,
) -> Result<Vec<u8>, AllocError>
    requires { AreOwnTables (content_of edition.now) kept.old.tables }
    ensures ok { IfOk result (λ reply.
        IsReply (record { content = content_of edition.now; mirrors = T.mirrors till.old }) asked.now.request.now
        asked.now.moment (T.asks till.old) (T.asks till.new) reply.items) }
    ensures err { OnErr result
        (HasBegun (record { content = content_of edition.now; mirrors = T.mirrors till.old })
        asked.now.request.now (T.asks till.old) (T.asks till.new)) }
    ensures mirrors { T.mirrors till.new ≡ T.mirrors till.old }
    ensures alone { T.alone till.old
        → T.alone till.new × GrantsFirst (T.mirrors till.old) (T.asks till.old) (T.asks till.new) }
    ensures kept { AreOwnTables (content_of edition.now) kept.new.tables }
{
    let request = asked.request;
    let Ok(plan) = plan_with(alloc, edition, request, kept) else {
        return Err(AllocError);
    };
    let Ok(outcomes) = ask_each(rt, alloc, till, plan.choices.as_slice()) else {
        return Err(AllocError);
    };
    let reply = render(
        alloc,
        edition,
        request,
        &plan,
        &outcomes,
        till.given(),
        asked.moment,
    );
    count_replied(counter, reply.is_ok(), request, &plan, &outcomes);
    reply
}
