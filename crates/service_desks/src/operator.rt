ghost use Rattle.std.specs.Prelude.{◌≡◌, ◌≤◌, codes, true};
ghost use Rattle.std.specs.Option.{ForSome};
ghost use Rattle.http_desks.specs.Calls.{answer_in};
ghost use Rattle.profile_toml.specs.Laws.{AreMirrors};
ghost use Rattle.service_desks.specs.Following.{state};
ghost use Rattle.service_desks.specs.Operators.{IsPerformed, IsRaised};
ghost use Rattle.service_desks.specs.States.{GoesOn, IsOwed};

use crate::attempt::Attempt;
use crate::dumps::dump;
use crate::following::{follow, give_way};
use crate::raises::perform_raise;
use crate::scripts::perform_script;
use http_desks::{Answer, Declared, Desk, Off, Page};
use kept_records::Records;
use mirror_ledger::Budgets;
use publisher::{Prepared, Press};
use std::sync::Wait;
use std::thread::Threads;

// The reply to a raise, or to one that gives way to another server's record.
fn raise<R: Threads + Wait + AllocGlobal, B: Budgets, K: Records>(
    rt: &R,
    press: &mut Press,
    budgets: &mut B,
    records: &mut K,
    due: &mut Option<Prepared>,
    workers: usize,
    body: &[u8],
) -> Result<Answer, Off>
    requires workers { (1 ≤ workers) × (workers ≤ 16) }
    requires due { ForSome due.old (λ next. GoesOn next press.old) }
    requires owed { IsOwed (K.lasts records.old) due.old }
    requires rises { B.rises budgets.old ≡ true }
    ensures is { IsRaised
        (state (B.present budgets.old) press.old (K.first records.old) (K.kept records.old) due.old) body.now (answer_in result)
        (state (B.present budgets.new) press.new (K.first records.new) (K.kept records.new) due.new) }
    ensures due { ForSome due.new (λ next. GoesOn next press.new) }
    ensures owed { IsOwed (K.lasts records.new) due.new }
    ensures rises { B.rises budgets.new ≡ true }
    ensures listed { AreMirrors (B.present budgets.old) → AreMirrors (B.present budgets.new) }
{
    match perform_raise(rt, budgets, records, body) {
        Ok(Attempt::Replied(answer)) => Ok(answer),
        Ok(Attempt::Overtaken) => give_way(rt, press, budgets, records, due, workers),
        Err(off) => Err(off),
    }
}

// The reply to a script, or to one that gives way to another server's record.
fn publish<R: Threads + Wait + AllocGlobal, B: Budgets, K: Records>(
    rt: &R,
    press: &mut Press,
    budgets: &mut B,
    records: &mut K,
    due: &mut Option<Prepared>,
    workers: usize,
    body: &[u8],
) -> Result<Answer, Off>
    requires workers { (1 ≤ workers) × (workers ≤ 16) }
    requires due { ForSome due.old (λ next. GoesOn next press.old) }
    requires owed { IsOwed (K.lasts records.old) due.old }
    requires rises { B.rises budgets.old ≡ true }
    ensures is { IsPerformed
        (state (B.present budgets.old) press.old (K.first records.old) (K.kept records.old) due.old) body.now (answer_in result)
        (state (B.present budgets.new) press.new (K.first records.new) (K.kept records.new) due.new) }
    ensures due { ForSome due.new (λ next. GoesOn next press.new) }
    ensures owed { IsOwed (K.lasts records.new) due.new }
    ensures rises { B.rises budgets.new ≡ true }
    ensures listed { AreMirrors (B.present budgets.old) → AreMirrors (B.present budgets.new) }
{
    match perform_script(rt, press, records, due, workers, body) {
        Ok(Attempt::Replied(answer)) => Ok(answer),
        Ok(Attempt::Overtaken) => give_way(rt, press, budgets, records, due, workers),
        Err(off) => Err(off),
    }
}

// rule: Operator's desk
/// The operator's desk over a press, records and the budgets of mirrors: it publishes scripts, raises budgets, keeps both,
/// and dumps the catalogue.
///
/// It replies to the messages to `/operate`. The body `dump` gets 200 and the profile of the published edition and the
/// mirrors, with their present budgets. A body that begins with `raise ` is to be like `raise m0 510`, and gets 200 and
/// `raised m0 510`; 422 and `refused B1 UnknownMirror`, `refused B2 TooHigh` or `refused B3 Lower 510`; or 400 and
/// `bad raise`. The body `follow` adopts the next record of a history that other servers share, and gets 200 and
/// `followed 2`, or `edition 2` if there is none. Any other body is a script: it gets 200 and `edition 2`; 409 and `stale 2`;
/// 422 and `refused 0 C11 UnknownRelease` or `history full`; or 400 and its first fault.
///
/// A script and a raise that get 200 were kept among the records before they took effect. If another server's record has
/// its number, that one is adopted, and the reply is 409 and `stale 2`, too. It is 503 and `history unreachable` or
/// `history in doubt` if no server of the history replies: nothing is kept, or it may be. The desk is off if the history
/// fails, and if memory runs out; then nothing is raised, and nothing published but what was due, or what another server
/// published. It knows no package and shows no page.
#[derive(Drop)]
pub struct Operator<'r, 'p, 'b, 'k, 'd, R: Threads + Wait + AllocGlobal, B: Budgets, K: Records> {
    /// What starts threads and has the memory of editions and replies.
    pub rt: &'r R,
    /// The press.
    pub press: &'p mut Press,
    /// The budgets of one to four valid mirrors of the packages, no two of one name; they may be raised.
    pub budgets: &'b mut B,
    /// Where scripts and raises are kept.
    pub records: &'k mut K,
    /// The edition of the last script that was kept, if there was no memory to show it.
    pub due: &'d mut Option<Prepared>,
    /// In how many pieces the tables of an edition are made, from 1 to 16.
    pub workers: usize,
    ghost listed: { AreMirrors (B.present budgets.now) },
    ghost rising: { B.rises budgets.now ≡ true },
    ghost followed: { ForSome due.now (λ next. GoesOn next press.now) },
    ghost owed: { IsOwed (K.lasts records.now) due.now },
    ghost counted: { (1 ≤ workers) × (workers ≤ 16) },
}

impl<R: Threads + Wait + AllocGlobal, B: Budgets, K: Records> Desk
    for Operator<'_, '_, '_, '_, '_, R, B, K> {
    ghost use Rattle.std.specs.Prelude.{◌≡◌};
    ghost use Rattle.service_desks.specs.Operators.{IsCall};
    ghost use Rattle.service_desks.specs.Following.{state};

    ghost path = { λ _. codes "/operate" };

    ghost content_type = { λ _. codes "text/plain" };

    ghost steps = { λ old call new.
        (new.press.ghost_name ≡ old.press.ghost_name) × (new.budgets.ghost_name ≡ old.budgets.ghost_name)
        × (new.records.ghost_name ≡ old.records.ghost_name) × (new.due.ghost_name ≡ old.due.ghost_name)
        × IsCall (state (B.present old.budgets.now) old.press.now (K.first old.records.now) (K.kept old.records.now) old.due.now) call
        (state (B.present new.budgets.now) new.press.now (K.first new.records.now) (K.kept new.records.now) new.due.now) };

    fn path(&self) -> &str {
        "/operate"
    }

    fn content_type(&self) -> &str {
        "text/plain"
    }

    fn answer(&mut self, body: &[u8], _moment: u64) -> Result<Answer, Off> {
        if body == b"dump".as_slice() {
            dump(self.rt.alloc(), self.press, self.budgets)
        } else if body == b"follow".as_slice() {
            follow(
                self.rt,
                self.press,
                self.budgets,
                self.records,
                self.due,
                self.workers,
            )
        } else if body.starts_with(b"raise ") {
            raise(
                self.rt,
                self.press,
                self.budgets,
                self.records,
                self.due,
                self.workers,
                body,
            )
        } else {
            publish(
                self.rt,
                self.press,
                self.budgets,
                self.records,
                self.due,
                self.workers,
                body,
            )
        }
    }

    fn package(&mut self, _name: &[u8]) -> Option<Declared> {
        None
    }

    fn page(&mut self, _at: &[u8]) -> Result<Option<Page>, Off> {
        Ok(None)
    }
}
