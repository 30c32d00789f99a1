// What a view does for one call: it enters an edition, and leaves it again.

ghost use Rattle.std.specs.Prelude.{◌≡◌, MatchResult, Ok, Err};
ghost use Rattle.service_desks.specs.Kept.{AreKept};
ghost use Rattle.service_desks.specs.Workers.{Finds, Replies};
ghost use Rattle.replies.specs.Asking.{GrantsFirst};

use crate::kept_tables::KeptTables;
use crate::packages::find_package;
use http_desks::{Declared, Off};
use mirror_ledger::Till;
use publisher::View;
use replies::{Asked, reply_to};
use std::alloc::Global;
use std::sync::Wait;
use tallies::CountChecks;

// rule: Reply of a worker
// rule: Entry for a call
/// Replies to a request from the edition that a view enters, by what a till grants, and gives the view back.
pub(crate) fn reply_by<T: Till, R: Wait, C: CountChecks>(
    rt: &R,
    alloc: Global,
    view: View,
    kept: &mut KeptTables,
    till: &mut T,
    counter: &C,
    asked: &Asked<'_>,
) -> (Result<Vec<u8>, Off>, View)
    requires { AreKept view kept.old }
    ensures replies { MatchResult result.0
        (λ text. Replies (T.mirrors till.old) (record { sight = view; asks = T.asks till.old })
        asked.now.request.now asked.now.moment (Ok text.items) (record { sight = result.1; asks = T.asks till.new }))
        (λ off. Replies (T.mirrors till.old) (record { sight = view; asks = T.asks till.old })
        asked.now.request.now asked.now.moment (Err off) (record { sight = result.1; asks = T.asks till.new })) }
    ensures mirrors { T.mirrors till.new ≡ T.mirrors till.old }
    ensures alone { T.alone till.old
        → T.alone till.new × GrantsFirst (T.mirrors till.old) (T.asks till.old) (T.asks till.new) }
    ensures kept { AreKept result.1 kept.new }
{
    let entered = match view.enter() {
        Ok(entered) => entered,
        Err(view) => return (Err(Off::Closed), view),
    };
    let edition = entered.edition();
    let _catalogue = edition.catalogue();
    kept.turn_to(edition);
    match reply_to(rt, alloc, edition, &mut kept.tables, till, counter, asked) {
        Ok(text) => (Ok(text), entered.leave()),
        Err(_) => (Err(Off::Memory), entered.leave()),
    }
}

// rule: Desk of a worker
/// Finds what is declared of a package by the edition that a view enters, and gives the view back.
pub(crate) fn find_by(view: View, name: &[u8]) -> (Option<Declared>, View)
    ensures { Finds view name.now result.0 result.1 }
{
    match view.enter() {
        Ok(entered) => {
            let found = find_package(entered.edition().catalogue(), name);
            (found, entered.leave())
        }
        Err(view) => (None, view),
    }
}
