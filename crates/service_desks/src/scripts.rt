// Scripts that are kept and published.

ghost use Rattle.std.specs.Prelude.{◌≡◌, ◌≤◌, ◌+◌, ◌^◌, ◌++◌, ◌∷◌, [], MatchResult, None, Some, Err, Ok, false, length, unwrap_or};
ghost use Rattle.std.specs.Option.{ForSome};
ghost use Rattle.catalogue.specs.declared.edit.Edit.{Edit};
ghost use Rattle.http_desks.specs.declared.desk.Off.TheVariants.{Memory};
ghost use Rattle.profile_toml.specs.Reading.{script_of_bytes};
ghost use Rattle.kept_records.specs.Keeping.{record_of};
ghost use Rattle.kept_records.specs.declared.record.Kind.TheVariants.{Script};
ghost use Rattle.publisher.specs.Beginnings.{StartsWith};
ghost use Rattle.service_desks.specs.Attempts.{attempt_in};
ghost use Rattle.service_desks.specs.Keeping.{IsKept, IsScriptAnswer};
ghost use Rattle.service_desks.specs.Scripts.{Attempts, publish_reply};
ghost use Rattle.service_desks.specs.States.{GoesOn, IsOwed, publication};

use crate::attempt::{Attempt, Unkept, give_up, keep, replied};
use crate::lines::{Line, reply_with};
use catalogue::Batch;
use http_desks::{Answer, Off};
use kept_records::{Kind, Records};
use par_tables::Free;
use profile_toml::read_script;
use publisher::{Prepared, Press, PublishError};
use std::alloc::Global;
use std::sync::Wait;
use std::thread::Threads;
use values::ReadError;

// The reply to a script that was not published, after so many earlier editions.
fn reply_to_error(alloc: Global, earlier: u64, error: &PublishError) -> Result<Answer, Off>
    requires { earlier ≤ 2 ^ 53 }
    ensures { MatchResult result
        (λ answer. publish_reply earlier (Err error.now) ≡ Some (answer.status, answer.body.items))
        (λ off. off ≡ Memory) }
{
    match error {
        PublishError::Stale(now) => reply_with(alloc, &Line::Stale(earlier + now.edition())),
        PublishError::Refused(refused) => reply_with(alloc, &Line::Refused(*refused)),
        PublishError::HistoryFull => reply_with(alloc, &Line::HistoryFull),
        PublishError::NoPlace => Err(Off::Memory),
        PublishError::Memory => Err(Off::Memory),
    }
}

// rule: Due edition
/// Shows the edition that is due, if one is; it stays due if memory runs out.
pub(crate) fn show_due<R: Wait>(
    rt: &R,
    press: &mut Press,
    due: &mut Option<Prepared>,
) -> Result<(), Off>
    requires { ForSome due.old (λ next. GoesOn next press.old) }
    ensures { MatchResult result
        (λ _. (press.new ≡ unwrap_or due.old press.old) × (due.new ≡ None))
        (λ off. (off ≡ Memory) × (press.new ≡ press.old) × (due.new ≡ due.old)) }
{
    let Some(prepared) = due.take() else {
        return Ok(());
    };
    match press.show_prepared(rt, prepared) {
        Ok(_receipt) => Ok(()),
        Err(prepared) => {
            *due = Some(prepared);
            Err(Off::Memory)
        }
    }
}

/// Shows an edition, or leaves it due if memory runs out.
pub(crate) fn show_or_owe<R: Wait>(
    rt: &R,
    press: &mut Press,
    due: &mut Option<Prepared>,
    next: Prepared,
) -> Result<(), Off>
    requires follows { StartsWith next press.old }
    requires none { due.old ≡ None }
    ensures { MatchResult result
        (λ _. (press.new ≡ next) × (due.new ≡ None))
        (λ off. (off ≡ Memory) × (press.new ≡ press.old) × (due.new ≡ Some next)) }
{
    match press.show_prepared(rt, next) {
        Ok(_receipt) => Ok(()),
        Err(next) => {
            *due = Some(next);
            Err(Off::Memory)
        }
    }
}

// Shows an edition, and then keeps its script, which no restart finds. If memory runs out, the edition is dropped.
fn show_and_keep<R: Wait + AllocGlobal, K: Records>(
    rt: &R,
    press: &mut Press,
    records: &mut K,
    next: Prepared,
    input: &[u8],
) -> Result<(), Off>
    requires follows { StartsWith next press.old }
    requires passing { K.lasts records.old ≡ false }
    ensures shows { MatchResult result
        (λ _. (press.new ≡ next) × (K.kept records.new ≡ K.kept records.old ++ record_of Script input.now ∷ []))
        (λ off. (off ≡ Memory) × (press.new ≡ press.old) × (K.kept records.new ≡ K.kept records.old)) }
    ensures first { K.first records.new ≡ K.first records.old }
    ensures lasts { K.lasts records.new ≡ K.lasts records.old }
{
    match press.show_prepared(rt, next) {
        Ok(_receipt) => match keep(rt.alloc(), records, Kind::Script, input) {
            Ok(()) => Ok(()),
            Err(_) => unreachable!(),
        },
        Err(_dropped) => Err(Off::Memory),
    }
}

// rule: Kept script
// rule: Due edition
// Keeps a script, and then shows its edition, or leaves it due if memory runs out. A script that isn't kept isn't shown. If
// no restart finds the script, its edition is shown first, or dropped.
fn keep_and_show<R: Wait + AllocGlobal, K: Records>(
    rt: &R,
    press: &mut Press,
    records: &mut K,
    due: &mut Option<Prepared>,
    next: Prepared,
    input: &[u8],
) -> Result<Result<(), Unkept>, Off>
    requires follows { StartsWith next press.old }
    requires none { due.old ≡ None }
    ensures keeps { IsKept input.now next
        (publication press.old (K.first records.old) (K.kept records.old) due.old) result
        (publication press.new (K.first records.new) (K.kept records.new) due.new) }
    ensures owed { IsOwed (K.lasts records.new) due.new }
{
    if !records.lasts() {
        return match show_and_keep(rt, press, records, next, input) {
            Ok(()) => Ok(Ok(())),
            Err(off) => Err(off),
        };
    }
    if let Err(unkept) = keep(rt.alloc(), records, Kind::Script, input) {
        return Ok(Err(unkept));
    }
    match show_or_owe(rt, press, due, next) {
        Ok(()) => Ok(Ok(())),
        Err(off) => Err(off),
    }
}

// rule: Reply to a script
// Publishes what a script was read as, and keeps the script. The reply is made first: if there is no memory for it, nothing
// is published.
fn publish_script<R: Threads + Wait + AllocGlobal, K: Records>(
    rt: &R,
    press: &mut Press,
    records: &mut K,
    due: &mut Option<Prepared>,
    workers: usize,
    script: (u64, Batch),
    input: &[u8],
) -> Result<Attempt, Off>
    requires workers { (1 ≤ workers) × (workers ≤ 16) }
    requires none { due.old ≡ None }
    requires read { script_of_bytes input.now ≡ Ok (script.0, script.1) }
    ensures answers { IsScriptAnswer input.now script.0 script.1
        (publication press.old (K.first records.old) (K.kept records.old) due.old) (attempt_in result)
        (publication press.new (K.first records.new) (K.kept records.new) due.new) }
    ensures owed { IsOwed (K.lasts records.new) due.new }
{
    let alloc = rt.alloc();
    let earlier = records.first() - 1;
    let next = earlier + press.edition().number() + 1;
    let published = match reply_with(alloc, &Line::Edition(next)) {
        Ok(published) => published,
        Err(off) => return Err(off),
    };
    let (base, batch) = script;
    let base = base.saturating_sub(earlier);
    match press.prepare(rt, alloc, base, batch, workers, &Free) {
        Ok(next) => match keep_and_show(rt, press, records, due, next, input) {
            Ok(Ok(())) => Ok(Attempt::Replied(published)),
            Ok(Err(unkept)) => give_up(alloc, unkept),
            Err(off) => Err(off),
        },
        Err(error) => replied(reply_to_error(alloc, earlier, &error)),
    }
}

// rule: Performed script
/// Publishes the script that an input is, on its base, with its tables made in `workers` pieces, from 1 to 16, and keeps
/// it among the records, before it is shown.
///
/// What is due is shown first: the edition of a script that was kept when there was no memory to show it. Returns the
/// reply of the operator's desk: 200 and `edition 2`; 409 and `stale 2`, if another edition than its base is published;
/// 422 and `refused 0 C11 UnknownRelease`, of the first rejected edit, or `history full`; 400 and the first fault of a
/// script, as `F3 BadEntry edit[0].on`; 503 and `history unreachable` or `history in doubt`, if no server of the history
/// replies. Each is one line. The first record is that of the edition of its number. It is `Overtaken` if another server's
/// record has its number, and `Closed` if the history fails; in both and after 503 it isn't published. If memory runs out,
/// for the reply too, nothing is published but what was due, and nothing is kept; or, if a restart finds the records, the
/// script is kept and its edition is due.
pub(crate) fn perform_script<R: Threads + Wait + AllocGlobal, K: Records>(
    rt: &R,
    press: &mut Press,
    records: &mut K,
    due: &mut Option<Prepared>,
    workers: usize,
    input: &[u8],
) -> Result<Attempt, Off>
    requires workers { (1 ≤ workers) × (workers ≤ 16) }
    requires due { ForSome due.old (λ next. GoesOn next press.old) }
    requires owed { IsOwed (K.lasts records.old) due.old }
    ensures performs { Attempts
        (publication press.old (K.first records.old) (K.kept records.old) due.old) input.now (attempt_in result)
        (publication press.new (K.first records.new) (K.kept records.new) due.new) }
    ensures due { ForSome due.new (λ next. GoesOn next press.new) }
    ensures owed { IsOwed (K.lasts records.new) due.new }
{
    match show_due(rt, press, due) {
        Ok(()) => {}
        Err(off) => return Err(off),
    }
    match read_script(rt.alloc(), input) {
        Ok(script) => publish_script(rt, press, records, due, workers, script, input),
        Err(ReadError::Fault(fault)) => replied(reply_with(rt.alloc(), &Line::Invalid(&fault))),
        Err(ReadError::Memory) => Err(Off::Memory),
    }
}
