// The connections of the operator.

ghost use Rattle.std.specs.Prelude.{◌≡◌, IfSome, List, None, Option, true};
ghost use Rattle.catalogue.specs.Histories.{History};
ghost use Rattle.profile_toml.specs.Laws.{AreMirrors};
ghost use Rattle.operator_pages.specs.declared.counts.Counts.{Counts as Numbers};
ghost use Rattle.operator_pages.specs.declared.publishes.Publish.{Publish};
ghost use Rattle.server_ports.specs.Logging.{HasSent};
ghost use Rattle.server_ports.specs.Passages.{passage_of};
ghost use Rattle.omaha_server.specs.Serving.{AreOperated};
ghost use Rattle.omaha_server.specs.Overviews.{overview, overview_at};
ghost use Rattle.service_desks.specs.States.{store};

use crate::checking::Checked;
use http_ports::Port;
use kept_records::Records;
use mirror_ledger::{BudgetJob, Budgets};
use operator_pages::{Counts, Publishes};
use publisher::{Prepared, Press, Receipt};
use server_ports::{NewPort, NewSender, Served, Setup, seconds_now, serve_new};
use std::alloc::AllocError;
use std::marker::PhantomData;
use std::sync::Wait;
use std::thread::Threads;
use std::time::Clock;
use systems::System;
use tallies::Tally;

/// The operator's port.
#[derive(Drop)]
pub(crate) enum OperatorPort<P: Port> {
    /// There is no operator.
    Missing,
    /// It isn't served yet.
    New(NewPort<P>),
    /// It is being served, or was.
    Served,
}

/// The connections of the operator, as the job of the server's own thread. It is not `Drop`, since a press isn't.
pub(crate) struct Operating<'s, 'a, S, R: Threads + Wait + AllocGlobal, P: Port, K> {
    /// What they are served with.
    pub(crate) setup: &'s Setup<'a, S, R>,
    /// Where they come from.
    pub(crate) port: OperatorPort<P>,
    /// The press of what is served.
    pub(crate) press: Press,
    /// Where scripts and raises are kept.
    pub(crate) records: K,
    /// The operator's end of the log, if there is one.
    pub(crate) lines: Option<NewSender>,
}

impl<S, R: Threads + Wait + AllocGlobal, P: Port + Drop, K: Drop> Operating<'_, '_, S, R, P, K> {
    /// Ends the press.
    pub(crate) fn end(self, rt: &R) {
        let Operating {
            setup: _,
            port,
            press,
            records,
            lines,
        } = self;
        drop((port, records, lines));
        press.end(rt);
    }
}

/// What the operator came to.
pub(crate) struct Operated<P> {
    /// The port, and its end of the log, if there is an operator.
    pub(crate) served: Option<Served<P>>,
    /// A receipt of what is published then.
    pub(crate) left: Result<Receipt, AllocError>,
    /// Whether the server was asked to end.
    pub(crate) ending: bool,
}

// Written out, so that no caller proves again how each part is dropped.
impl<P: Drop> Drop for Operated<P> {
    fn drop(self) {
        let Operated {
            served: _,
            left: _,
            ending: _,
        } = self;
    }
}

impl<P> Operated<P> {
    /// Gives all three.
    pub(crate) fn into_parts(self) -> (Option<Served<P>>, Result<Receipt, AllocError>, bool)
        ensures served { result.0 ≡ self.served }
        ensures left { result.1 ≡ self.left }
        ensures ending { result.2 ≡ self.ending }
    {
        let Operated {
            served,
            left,
            ending,
        } = self;
        (served, left, ending)
    }
}

// The operator's port that was served, when it began, and whether the server was asked to end.
#[derive(Drop)]
struct Operation<P> {
    served: Served<P>,
    started: u64,
    ending: bool,
}

// Serves a port by the operator's desk, which looks for packages first.
fn serve_desk<
    S: System<P>,
    R: Clock + Threads + Wait + AllocGlobal,
    P: Port + Drop,
    B: Budgets,
    K: Records,
>(
    setup: &Setup<'_, S, R>,
    port: NewPort<P>,
    checked: &mut Checked<'_, '_, '_, '_, '_, '_, S, R, P, B, K>,
    lines: Option<NewSender>,
) -> Served<P>
    requires { checked.old.setup.now ≡ setup.now }
    ensures same_press { checked.new.press.ghost_name ≡ checked.old.press.ghost_name }
    ensures same_budgets { checked.new.budgets.ghost_name ≡ checked.old.budgets.ghost_name }
    ensures same_records { checked.new.records.ghost_name ≡ checked.old.records.ghost_name }
    ensures same_due { checked.new.due.ghost_name ≡ checked.old.due.ghost_name }
    ensures operated { AreOperated (S.edges setup.now.system.now) setup.now.place.now (P.terms port)
        (overview (record { mirrors = B.present checked.old.budgets.now; history = checked.old.press.now; store = store (K.first checked.old.records.now) (K.kept checked.old.records.now) checked.old.due.now }) checked.old.counts checked.old.publishes checked.old.ending)
        (overview (record { mirrors = B.present checked.new.budgets.now; history = checked.new.press.now; store = store (K.first checked.new.records.now) (K.kept checked.new.records.now) checked.new.due.now }) checked.new.counts checked.new.publishes checked.new.ending)
        (passage_of P.terms P.slots P.accepted result.port) }
    ensures log { HasSent (P.slots result.port.port) lines result.log }
{
    serve_new(setup, port, checked, lines, None::<&'static Tally>)
}

// The same, over a press, records and budgets that may be raised.
fn operate<
    S: System<P>,
    R: Clock + Threads + Wait + AllocGlobal,
    P: Port + Drop,
    B: Budgets,
    K: Records,
>(
    setup: &Setup<'_, S, R>,
    port: NewPort<P>,
    press: &mut Press,
    records: &mut K,
    due: &mut Option<Prepared>,
    budgets: &mut B,
    lines: Option<NewSender>,
) -> Operation<P>
    requires listed { AreMirrors (B.present budgets.old) }
    requires rising { B.rises budgets.old ≡ true }
    requires none { due.old ≡ None }
    ensures operated { (counts : Numbers) × (publishes : List Publish)
        × AreOperated (S.edges setup.now.system.now) setup.now.place.now (P.terms port)
        (overview_at result.started (record { mirrors = B.present budgets.old; history = press.old; store = store (K.first records.old) (K.kept records.old) due.old }))
        (overview (record { mirrors = B.present budgets.new; history = press.new; store = store (K.first records.new) (K.kept records.new) due.new }) counts publishes result.ending)
        (passage_of P.terms P.slots P.accepted result.served.port) }
    ensures log { HasSent (P.slots result.served.port.port) lines result.served.log }
{
    let started = seconds_now(setup.rt);
    let mut checked = Checked {
        setup,
        press,
        budgets,
        records,
        due,
        counts: Counts::new(started),
        publishes: Publishes::new(),
        ending: false,
        ports: PhantomData,
    };
    let served = serve_desk(setup, port, &mut checked, lines);
    let ending = checked.ending;
    Operation {
        served,
        started,
        ending,
    }
}

// rule: Sessions of an operator
impl<
    S: System<P>,
    R: Clock + Threads + Wait + AllocGlobal,
    P: Port + Send + Drop,
    K: Records,
> BudgetJob for Operating<'_, '_, S, R, P, K> {
    ghost use Rattle.std.specs.Prelude.{◌≡◌, ℕ, IfOk, IfSome, List, option_map};
    ghost use Rattle.operator_pages.specs.declared.counts.Counts.{Counts as Numbers};
    ghost use Rattle.operator_pages.specs.declared.publishes.Publish.{Publish};
    ghost use Rattle.omaha_server.specs.Overviews.{overview, overview_at};
    ghost use Rattle.http_desks.specs.Calls.{Call};
    ghost use Rattle.service_desks.specs.States.{Publication};
    ghost use Rattle.omaha_server.specs.OperatorPorts.{has_operator, terms_left};
    ghost use Rattle.server_ports.specs.Logging.{HasSent};
    ghost use Rattle.server_ports.specs.Passages.{passage_of};
    ghost use Rattle.omaha_server.specs.Serving.{IsOperated, begun, with_mirrors};

    type End = Operated<P>;

    ghost raises = { λ own. has_operator own.port };

    ghost comes_to = { λ before after old end.
        (left : Publication) × (calls : List Call) × (started : ℕ) × (counts : Numbers) × (publishes : List Publish)
        × IsOperated (S.edges old.setup.now.system.now) old.setup.now.place.now (terms_left P.terms old.port)
        (overview_at started (with_mirrors before (begun old.press (K.first old.records) (K.kept old.records)))) calls
        (overview (with_mirrors after left) counts publishes end.ending)
        (option_map (passage_of P.terms P.slots P.accepted) (option_map (λ served. served.port) end.served))
        × IfOk end.left (λ receipt. receipt ≡ left.history)
        × IfSome end.served (λ served. HasSent (P.slots served.port.port) old.lines served.log) };

    fn work<B: Budgets>(&mut self, budgets: &mut B) -> Operated<P> {
        match &self.port {
            OperatorPort::New(_) => {}
            _ => return Operated {
                served: None,
                left: self.press.receipt(),
                ending: false,
            },
        }
        let OperatorPort::New(port) = std::mem::replace(&mut self.port, OperatorPort::Served) else {
            unreachable!()
        };
        let mut due = None;
        let operation = operate(
            self.setup,
            port,
            &mut self.press,
            &mut self.records,
            &mut due,
            budgets,
            self.lines.take(),
        );
        let left = self.press.receipt();
        let Operation { served, ending, .. } = operation;
        Operated {
            served: Some(served),
            left,
            ending,
        }
    }
}
