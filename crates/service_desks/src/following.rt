// What is adopted of a history that other servers share.

ghost use Rattle.std.specs.Prelude.{◌≡◌, ◌≤◌, ◌++◌, ◌∷◌, [], List, Option, None, Ok, true, IfOk, MatchResult};
ghost use Rattle.std.specs.Option.{ForSome};
ghost use Rattle.catalogue.specs.Histories.{History};
ghost use Rattle.editions.specs.Editions.{Continues};
ghost use Rattle.http_desks.specs.Calls.{answer_in};
ghost use Rattle.kept_records.specs.Keeping.{record_of};
ghost use Rattle.kept_records.specs.declared.record.Kind.TheVariants.{Raise, Script};
ghost use Rattle.profile_toml.specs.Laws.{AreMirrors};
ghost use Rattle.kept_records.specs.declared.record.Record.{Record};
ghost use Rattle.catalogue.specs.declared.mirror.Mirror.{Mirror};
ghost use Rattle.service_desks.specs.Following.{AdoptsNext, Follows, GivesWay, IsRaiseBy, IsReplyWithout, IsScriptAfter, number_in, state};
ghost use Rattle.service_desks.specs.States.{GoesOn, IsOwed};

use crate::lines::{Line, reply_with};
use crate::raises::{raise_of, value_of};
use crate::scripts::{show_due, show_or_owe};
use catalogue::Batch;
use http_desks::{Answer, Off};
use kept_records::{Cause, Kind, ReadFault, Records};
use mirror_ledger::Budgets;
use par_tables::Free;
use profile_toml::read_script;
use publisher::{Prepared, Press, PublishError};
use std::alloc::Global;
use std::sync::Wait;
use std::thread::Threads;
use values::ReadError;

/// Why no record of another server was adopted.
#[derive(Clone, Copy, Drop)]
pub(crate) enum Unadopted {
    /// No server of the history replies.
    Unreachable,
    /// The history failed, or its next record doesn't follow.
    Closed,
    /// Out of memory.
    Memory,
}

impl Unadopted {
    fn by(fault: ReadFault) -> Unadopted {
        match fault {
            ReadFault::Failed(Cause::Unreachable(_)) => Unadopted::Unreachable,
            ReadFault::Failed(Cause::Memory) => Unadopted::Memory,
            ReadFault::Failed(_) => Unadopted::Closed,
        }
    }

    // The reply of a desk that adopted nothing.
    fn reply(self, alloc: Global) -> Result<Answer, Off>
        ensures { IsReplyWithout self (answer_in result) }
    {
        match self {
            Unadopted::Unreachable => reply_with(alloc, &Line::Unreachable),
            Unadopted::Closed => Err(Off::Closed),
            Unadopted::Memory => Err(Off::Memory),
        }
    }
}

// Prepares the edition with one more batch.
fn prepare_next<R: Threads + AllocGlobal>(
    rt: &R,
    press: &Press,
    workers: usize,
    batch: Batch,
) -> Result<Prepared, Unadopted>
    requires workers { (1 ≤ workers) × (workers ≤ 16) }
    ensures { IfOk result (λ next. Continues press.now batch (Ok next)) }
{
    let base = press.edition().number();
    match press.prepare(rt, rt.alloc(), base, batch, workers, &Free) {
        Ok(next) => Ok(next),
        Err(PublishError::Memory) => Err(Unadopted::Memory),
        Err(_) => Err(Unadopted::Closed),
    }
}

// Prepares the edition of a script that another server kept.
fn prepare_script<R: Threads + AllocGlobal>(
    rt: &R,
    press: &Press,
    workers: usize,
    script: &[u8],
) -> Result<Prepared, Unadopted>
    requires workers { (1 ≤ workers) × (workers ≤ 16) }
    ensures { IfOk result (λ next. IsScriptAfter press.now script.now next) }
{
    match read_script(rt.alloc(), script) {
        Ok((_base, batch)) => prepare_next(rt, press, workers, batch),
        Err(ReadError::Fault(_)) => Err(Unadopted::Closed),
        Err(ReadError::Memory) => Err(Unadopted::Memory),
    }
}

// Makes a raise that another server kept.
fn make_raise<R: Wait, B: Budgets>(rt: &R, budgets: &mut B, raise: &[u8]) -> Result<(), Unadopted>
    requires rises { B.rises budgets.old ≡ true }
    ensures raised { MatchResult result (λ _. IsRaiseBy (B.present budgets.old) raise.now (B.present budgets.new))
        (λ _. B.present budgets.new ≡ B.present budgets.old) }
    ensures rises { B.rises budgets.new ≡ true }
    ensures listed { AreMirrors (B.present budgets.old) → AreMirrors (B.present budgets.new) }
{
    let Some((name, digits)) = raise_of(raise) else {
        return Err(Unadopted::Closed);
    };
    match budgets.raise(rt, name, value_of(digits)) {
        Ok(()) => Ok(()),
        Err(_) => Err(Unadopted::Closed),
    }
}

// Adopts a script that was just read.
fn adopt_script<R: Threads + Wait + AllocGlobal, K: Records>(
    rt: &R,
    press: &mut Press,
    records: &mut K,
    due: &mut Option<Prepared>,
    workers: usize,
    script: &[u8],
) -> Result<bool, Unadopted>
    requires workers { (1 ≤ workers) × (workers ≤ 16) }
    requires none { due.old ≡ None }
    requires read { K.was_read records.old }
    requires lasting { K.lasts records.old ≡ true }
    ensures adopts { (mirrors : List Mirror) (known : List Record) → K.kept records.old ≡ known ++ record_of Script script.now ∷ [] → AdoptsNext
        (state mirrors press.old (K.first records.old) known due.old) result
        (state mirrors press.new (K.first records.new) (K.kept records.new) due.new) }
    ensures due { ForSome due.new (λ next. GoesOn next press.new) }
    ensures lasts { K.lasts records.new ≡ true }
{
    match prepare_script(rt, press, workers, script) {
        Ok(next) => match show_or_owe(rt, press, due, next) {
            Ok(()) => Ok(true),
            Err(_) => Err(Unadopted::Memory),
        },
        Err(unadopted) => {
            let _ = records.unread();
            Err(unadopted)
        }
    }
}

// Adopts a raise that was just read.
fn adopt_raise<R: Wait, B: Budgets, K: Records>(
    rt: &R,
    budgets: &mut B,
    records: &mut K,
    raise: &[u8],
) -> Result<bool, Unadopted>
    requires rises { B.rises budgets.old ≡ true }
    requires read { K.was_read records.old }
    ensures adopts { (history : History) (known : List Record) → K.kept records.old ≡ known ++ record_of Raise raise.now ∷ [] → AdoptsNext
        (state (B.present budgets.old) history (K.first records.old) known None) result
        (state (B.present budgets.new) history (K.first records.new) (K.kept records.new) None) }
    ensures lasts { K.lasts records.new ≡ K.lasts records.old }
    ensures rises { B.rises budgets.new ≡ true }
    ensures listed { AreMirrors (B.present budgets.old) → AreMirrors (B.present budgets.new) }
{
    match make_raise(rt, budgets, raise) {
        Ok(()) => Ok(true),
        Err(unadopted) => {
            let _ = records.unread();
            Err(unadopted)
        }
    }
}

// rule: Record of another server
// Adopts the next record of the history, if there is one, and returns whether there was.
fn adopt_next<R: Threads + Wait + AllocGlobal, B: Budgets, K: Records>(
    rt: &R,
    press: &mut Press,
    budgets: &mut B,
    records: &mut K,
    due: &mut Option<Prepared>,
    workers: usize,
) -> Result<bool, Unadopted>
    requires workers { (1 ≤ workers) × (workers ≤ 16) }
    requires none { due.old ≡ None }
    requires rises { B.rises budgets.old ≡ true }
    ensures adopts { AdoptsNext
        (state (B.present budgets.old) press.old (K.first records.old) (K.kept records.old) due.old) result
        (state (B.present budgets.new) press.new (K.first records.new) (K.kept records.new) due.new) }
    ensures due { ForSome due.new (λ next. GoesOn next press.new) }
    ensures owed { IsOwed (K.lasts records.new) due.new }
    ensures rises { B.rises budgets.new ≡ true }
    ensures listed { AreMirrors (B.present budgets.old) → AreMirrors (B.present budgets.new) }
{
    let entry = match records.next(rt.alloc()) {
        Ok(Some(entry)) => entry,
        Ok(None) => return Ok(false),
        Err(fault) => return Err(Unadopted::by(fault)),
    };
    let bytes = entry.bytes.as_slice();
    match entry.kind {
        Kind::Script => adopt_script(rt, press, records, due, workers, bytes),
        Kind::Raise => adopt_raise(rt, budgets, records, bytes),
        Kind::Profile => {
            let _ = records.unread();
            Err(Unadopted::Closed)
        }
    }
}

// The number of the edition that is published.
fn number_of<K: Records>(press: &Press, records: &K) -> u64
    ensures { (mirrors : List Mirror) (due : Option History)
        → result ≡ number_in (state mirrors press.now (K.first records.now) (K.kept records.now) due) }
{
    records.first() - 1 + press.edition().number()
}

// rule: Server that follows
/// Adopts the next record of a history that other servers share.
///
/// What is due is shown first. The reply is 200 and `followed 2`, the number of the edition that is then published, after a
/// record of another server; 200 and `edition 2` if there is none; or 503 and `history unreachable`. It is `Closed` if the
/// history fails, or its next record doesn't follow what is published.
pub(crate) fn follow<R: Threads + Wait + AllocGlobal, B: Budgets, K: Records>(
    rt: &R,
    press: &mut Press,
    budgets: &mut B,
    records: &mut K,
    due: &mut Option<Prepared>,
    workers: usize,
) -> Result<Answer, Off>
    requires workers { (1 ≤ workers) × (workers ≤ 16) }
    requires due { ForSome due.old (λ next. GoesOn next press.old) }
    requires owed { IsOwed (K.lasts records.old) due.old }
    requires rises { B.rises budgets.old ≡ true }
    ensures follows { Follows
        (state (B.present budgets.old) press.old (K.first records.old) (K.kept records.old) due.old) (answer_in result)
        (state (B.present budgets.new) press.new (K.first records.new) (K.kept records.new) due.new) }
    ensures due { ForSome due.new (λ next. GoesOn next press.new) }
    ensures owed { IsOwed (K.lasts records.new) due.new }
    ensures rises { B.rises budgets.new ≡ true }
    ensures listed { AreMirrors (B.present budgets.old) → AreMirrors (B.present budgets.new) }
{
    match show_due(rt, press, due) {
        Ok(()) => {}
        Err(off) => return Err(off),
    }
    match adopt_next(rt, press, budgets, records, due, workers) {
        Ok(true) => reply_with(rt.alloc(), &Line::Followed(number_of(press, records))),
        Ok(false) => reply_with(rt.alloc(), &Line::Edition(number_of(press, records))),
        Err(unadopted) => unadopted.reply(rt.alloc()),
    }
}

// rule: Server that gives way
/// Adopts the record of another server that has the number of a script or a raise.
///
/// What is due is shown first. The reply is 409 and `stale 2`, the number of the edition that is then published; or as of
/// `follow` if the record can't be read, or doesn't follow. It is `Closed` too if there is no record.
pub(crate) fn give_way<R: Threads + Wait + AllocGlobal, B: Budgets, K: Records>(
    rt: &R,
    press: &mut Press,
    budgets: &mut B,
    records: &mut K,
    due: &mut Option<Prepared>,
    workers: usize,
) -> Result<Answer, Off>
    requires workers { (1 ≤ workers) × (workers ≤ 16) }
    requires due { ForSome due.old (λ next. GoesOn next press.old) }
    requires owed { IsOwed (K.lasts records.old) due.old }
    requires rises { B.rises budgets.old ≡ true }
    ensures gives_way { GivesWay
        (state (B.present budgets.old) press.old (K.first records.old) (K.kept records.old) due.old) (answer_in result)
        (state (B.present budgets.new) press.new (K.first records.new) (K.kept records.new) due.new) }
    ensures due { ForSome due.new (λ next. GoesOn next press.new) }
    ensures owed { IsOwed (K.lasts records.new) due.new }
    ensures rises { B.rises budgets.new ≡ true }
    ensures listed { AreMirrors (B.present budgets.old) → AreMirrors (B.present budgets.new) }
{
    match show_due(rt, press, due) {
        Ok(()) => {}
        Err(off) => return Err(off),
    }
    match adopt_next(rt, press, budgets, records, due, workers) {
        Ok(true) => reply_with(rt.alloc(), &Line::Stale(number_of(press, records))),
        Ok(false) => Err(Off::Closed),
        Err(unadopted) => unadopted.reply(rt.alloc()),
    }
}
