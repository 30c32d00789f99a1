// A desk that looks for the packages of a script before the operator's desk gets it, and shows pages.

ghost use Rattle.std.specs.Prelude.{◌≡◌, ◌-◌, MatchResult, true};
ghost use Rattle.std.specs.Option.{ForSome};
ghost use Rattle.http_desks.specs.Calls.{Asks, answer_in};
ghost use Rattle.http_desks.specs.declared.desk.DeskStatus.TheVariants.{Success, UnprocessableContent};
ghost use Rattle.http_desks.specs.declared.desk.Off.TheVariants.{Memory};
ghost use Rattle.omaha_server.specs.Checking.{ChecksBody, IsLookedAt, StopsFor, StopsIf};
ghost use Rattle.omaha_server.specs.Checks.{lacking_line, sizes_at};
ghost use Rattle.omaha_server.specs.Overviews.{publish_of};
ghost use Rattle.operator_pages.specs.Health.{stopping_line};
ghost use Rattle.profile_toml.specs.Laws.{AreMirrors};
ghost use Rattle.service_desks.specs.Operators.{IsCall as IsOperatorCall};
ghost use Rattle.service_desks.specs.States.{GoesOn, IsOwed, State, earlier_in, store};

use crate::calls::{end_server, note_answer, note_stop};
use crate::circumstances::Circumstances;
use crate::showing::{
    count_call, has_more, note_publish, publish_of, settled_count, show_page, show_status,
};
use http_desks::{Answer, Declared, Desk, DeskStatus, Off, Page};
use http_ports::Port;
use kept_records::Records;
use mirror_ledger::Budgets;
use operator_pages::{Counts, Publish, Publishes};
use package_files::{Lacking, PackageSizes, look_for_added};
use profile_toml::read_script;
use publisher::{Prepared, Press};
use server_ports::{Setup, SystemFolder};
use service_desks::Operator;
use std::alloc::Global;
use std::marker::PhantomData;
use std::sync::Wait;
use std::thread::Threads;
use systems::System;
use values::ReadError;

// The reply to a script that adds a package which isn't there.
fn reject(alloc: Global, lacking: &Lacking<'_>) -> Result<Answer, Off>
    ensures { MatchResult result
        (λ answer. (answer.status ≡ UnprocessableContent) × (answer.body.items ≡ lacking_line lacking.now.name.now lacking.now.lack))
        (λ off. off ≡ Memory) }
{
    match format!(in alloc; "{lacking}\n") {
        Ok(text) => Ok(Answer {
            status: DeskStatus::UnprocessableContent,
            body: text.into_bytes(),
        }),
        Err(_) => Err(Off::Memory),
    }
}

// The reply to a script whose packages were looked for, if one isn't there.
fn stop_for(alloc: Global, looked: Result<(), Lacking<'_>>) -> Option<Result<Answer, Off>>
    ensures { IsLookedAt looked.entry result }
{
    match looked {
        Ok(()) => None,
        Err(lacking) => Some(reject(alloc, &lacking)),
    }
}

// rule: Packages that must exist
// The reply to a body for which the desk isn't asked: it is a script that adds a package which isn't there.
fn stop<F: PackageSizes>(alloc: Global, folder: &F, body: &[u8]) -> Option<Result<Answer, Off>>
    ensures { StopsFor (F.sizes folder.now) body.now result }
{
    match read_script(alloc, body) {
        Ok(script) => stop_for(alloc, look_for_added(folder, script.1.edits())),
        Err(ReadError::Fault(_)) => None,
        Err(ReadError::Memory) => Some(Err(Off::Memory)),
    }
}

// The same, if packages must exist.
fn stop_if<F: PackageSizes>(
    alloc: Global,
    must: bool,
    folder: &F,
    body: &[u8],
) -> Option<Result<Answer, Off>>
    ensures { StopsIf must (F.sizes folder.now) body.now result }
{
    if must {
        stop(alloc, folder, body)
    } else {
        None
    }
}

// Asks the operator's desk.
fn ask_operator<R: Threads + Wait + AllocGlobal, B: Budgets, K: Records>(
    desk: &mut Operator<'_, '_, '_, '_, '_, R, B, K>,
    body: &[u8],
    moment: u64,
) -> Result<Answer, Off>
    ensures same_press { desk.new.press.ghost_name ≡ desk.old.press.ghost_name }
    ensures same_budgets { desk.new.budgets.ghost_name ≡ desk.old.budgets.ghost_name }
    ensures same_records { desk.new.records.ghost_name ≡ desk.old.records.ghost_name }
    ensures same_due { desk.new.due.ghost_name ≡ desk.old.due.ghost_name }
    ensures listed { AreMirrors (B.present desk.new.budgets.now) }
    ensures rising { B.rises desk.new.budgets.now ≡ true }
    ensures followed { ForSome desk.new.due.now (λ next. GoesOn next desk.new.press.now) }
    ensures owed { IsOwed (K.lasts desk.new.records.now) desk.new.due.now }
    ensures called { IsOperatorCall
        (record { mirrors = B.present desk.old.budgets.now; history = desk.old.press.now; store = store (K.first desk.old.records.now) (K.kept desk.old.records.now) desk.old.due.now })
        (Asks body.now moment (answer_in result))
        (record { mirrors = B.present desk.new.budgets.now; history = desk.new.press.now; store = store (K.first desk.new.records.now) (K.kept desk.new.records.now) desk.new.due.now }) }
{
    desk.answer(body, moment)
}

// Asks the operator's desk over a press, records and budgets that may be raised.
fn ask_over<S, R: Threads + Wait + AllocGlobal, B: Budgets, K: Records>(
    setup: &Setup<'_, S, R>,
    press: &mut Press,
    budgets: &mut B,
    records: &mut K,
    due: &mut Option<Prepared>,
    body: &[u8],
    moment: u64,
) -> Result<Answer, Off>
    requires listed { AreMirrors (B.present budgets.old) }
    requires rising { B.rises budgets.old ≡ true }
    requires followed { ForSome due.old (λ next. GoesOn next press.old) }
    requires owed { IsOwed (K.lasts records.old) due.old }
    ensures listed { AreMirrors (B.present budgets.new) }
    ensures rising { B.rises budgets.new ≡ true }
    ensures followed { ForSome due.new (λ next. GoesOn next press.new) }
    ensures owed { IsOwed (K.lasts records.new) due.new }
    ensures called { IsOperatorCall
        (record { mirrors = B.present budgets.old; history = press.old; store = store (K.first records.old) (K.kept records.old) due.old })
        (Asks body.now moment (answer_in result))
        (record { mirrors = B.present budgets.new; history = press.new; store = store (K.first records.new) (K.kept records.new) due.new }) }
{
    let mut desk = Operator {
        rt: setup.rt,
        press,
        budgets,
        records,
        due,
        workers: setup.place.workers,
    };
    ask_operator(&mut desk, body, moment)
}

// What the operator's thread knows beside what is published.
fn circumstances_of<K: Records>(records: &K, counts: Counts, ending: bool) -> Circumstances
    ensures earlier { result.earlier ≡ K.first records.now - 1 }
    ensures counts { result.counts ≡ counts }
    ensures ending { result.ending ≡ ending }
{
    Circumstances {
        earlier: records.first() - 1,
        counts,
        ending,
    }
}

// The publish of the edition that a press has published, at a time.
fn publish_at<K: Records>(press: &Press, records: &K, moment: u64) -> Publish
    ensures { (state : State) → state.history ≡ press.now → earlier_in state.store ≡ K.first records.now - 1
        → result ≡ publish_of state moment }
{
    publish_of(press.edition(), records.first() - 1, moment)
}

// rule: Stop of a server
// The reply to whoever asks the server to end.
fn stopping(alloc: Global) -> Result<Answer, Off>
    ensures { MatchResult result
        (λ answer. (answer.status ≡ Success) × (answer.body.items ≡ stopping_line)) (λ off. off ≡ Memory) }
{
    match Vec::from_slice(alloc, b"stopping\n") {
        Ok(body) => Ok(Answer {
            status: DeskStatus::Success,
            body,
        }),
        Err(_) => Err(Off::Memory),
    }
}

// Asks the server to end, and replies to whoever asked for it, unless memory runs out.
fn stop_server<S: System<P>, R: Wait + AllocGlobal, P: Port>(
    setup: &Setup<'_, S, R>,
    ending: &mut bool,
) -> Result<Answer, Off>
    ensures { MatchResult result
        (λ answer. (answer.status ≡ Success) × (answer.body.items ≡ stopping_line) × (ending.new ≡ true))
        (λ off. (off ≡ Memory) × (ending.new ≡ ending.old)) }
{
    match stopping(setup.rt.alloc()) {
        Ok(answer) => {
            *ending = true;
            end_server::<S, R, P>(setup);
            Ok(answer)
        }
        Err(off) => Err(off),
    }
}

// Replies to a body that asks for neither the status nor the server's end, by the operator's desk, unless it is a script that
// adds a package which isn't there and must be.
fn answer_checked<S: System<P>, R: Threads + Wait + AllocGlobal, P: Port, B: Budgets, K: Records>(
    setup: &Setup<'_, S, R>,
    press: &mut Press,
    budgets: &mut B,
    records: &mut K,
    due: &mut Option<Prepared>,
    body: &[u8],
    moment: u64,
) -> Result<Answer, Off>
    requires listed { AreMirrors (B.present budgets.old) }
    requires rising { B.rises budgets.old ≡ true }
    requires followed { ForSome due.old (λ next. GoesOn next press.old) }
    requires owed { IsOwed (K.lasts records.old) due.old }
    ensures listed { AreMirrors (B.present budgets.new) }
    ensures rising { B.rises budgets.new ≡ true }
    ensures followed { ForSome due.new (λ next. GoesOn next press.new) }
    ensures owed { IsOwed (K.lasts records.new) due.new }
    ensures called { ChecksBody setup.now.place.now.packages_must_exist (sizes_at (S.edges setup.now.system.now) setup.now.place.now)
        (record { mirrors = B.present budgets.old; history = press.old; store = store (K.first records.old) (K.kept records.old) due.old })
        body.now moment (answer_in result)
        (record { mirrors = B.present budgets.new; history = press.new; store = store (K.first records.new) (K.kept records.new) due.new }) }
{
    let place = setup.place;
    let folder = SystemFolder::<S, P>::new(setup.system, place.packages.as_str());
    let must = place.packages_must_exist;
    match stop_if(setup.rt.alloc(), must, &folder, body) {
        Some(stopped) => {
            note_stop(setup, &stopped);
            stopped
        }
        None => {
            let answered = ask_over(setup, press, budgets, records, due, body, moment);
            note_answer::<S, R, P>(setup, body, &answered);
            answered
        }
    }
}

/// The operator's desk, which looks for packages first: if the place's packages must exist, it isn't asked for a script
/// that adds one which isn't in the folder with its size. It isn't asked for the status, nor for pages, nor when the
/// server is asked to end.
#[derive(Drop)]
pub(crate) struct Checked<
    's,
    'a,
    'p,
    'b,
    'k,
    'd,
    S,
    R: Threads + Wait + AllocGlobal,
    P,
    B: Budgets,
    K: Records,
> {
    /// What the desk is served with.
    pub(crate) setup: &'s Setup<'a, S, R>,
    /// The press.
    pub(crate) press: &'p mut Press,
    /// The budgets of the mirrors, which may be raised.
    pub(crate) budgets: &'b mut B,
    /// Where scripts and raises are kept.
    pub(crate) records: &'k mut K,
    /// The edition of the last script that was kept, if there was no memory to show it.
    pub(crate) due: &'d mut Option<Prepared>,
    /// What the operator's calls came to.
    pub(crate) counts: Counts,
    /// The last publishes.
    pub(crate) publishes: Publishes,
    /// Whether the server was asked to end.
    pub(crate) ending: bool,
    /// The ports of the system.
    pub(crate) ports: PhantomData<P>,
    ghost listed: { AreMirrors (B.present budgets.now) },
    ghost rising: { B.rises budgets.now ≡ true },
    ghost followed: { ForSome due.now (λ next. GoesOn next press.now) },
    ghost owed: { IsOwed (K.lasts records.now) due.now },
}

// rule: Packages that must exist
impl<S: System<P>, R: Threads + Wait + AllocGlobal, P: Port, B: Budgets, K: Records> Desk
    for Checked<'_, '_, '_, '_, '_, '_, S, R, P, B, K> {
    ghost use Rattle.std.specs.Prelude.{◌≡◌, codes};
    ghost use Rattle.omaha_server.specs.Serving.{OperatorSteps};
    ghost use Rattle.omaha_server.specs.Overviews.{overview};
    ghost use Rattle.service_desks.specs.States.{store};

    ghost path = { λ _. codes "/operate" };

    ghost content_type = { λ _. codes "text/plain" };

    ghost steps = { λ old call new. (new.setup.now ≡ old.setup.now)
        × (new.press.ghost_name ≡ old.press.ghost_name) × (new.budgets.ghost_name ≡ old.budgets.ghost_name)
        × (new.records.ghost_name ≡ old.records.ghost_name) × (new.due.ghost_name ≡ old.due.ghost_name)
        × OperatorSteps (S.edges old.setup.now.system.now) old.setup.now.place.now
        (overview (record { mirrors = B.present old.budgets.now; history = old.press.now; store = store (K.first old.records.now) (K.kept old.records.now) old.due.now }) old.counts old.publishes old.ending) call
        (overview (record { mirrors = B.present new.budgets.now; history = new.press.now; store = store (K.first new.records.now) (K.kept new.records.now) new.due.now }) new.counts new.publishes new.ending) };

    fn path(&self) -> &str {
        "/operate"
    }

    fn content_type(&self) -> &str {
        "text/plain"
    }

    fn answer(&mut self, body: &[u8], moment: u64) -> Result<Answer, Off> {
        if body == b"stop".as_slice() {
            return stop_server::<S, R, P>(self.setup, &mut self.ending);
        }
        if body == b"status".as_slice() {
            let circumstances = circumstances_of(self.records, self.counts, self.ending);
            let version = self.setup.place.version.as_str();
            let publishes = self.publishes.as_slice();
            return show_status(
                self.setup,
                self.press,
                self.budgets,
                version,
                publishes,
                &circumstances,
            );
        }
        let count = settled_count(self.press, self.due);
        let answered = answer_checked::<S, R, P, B, K>(
            self.setup,
            self.press,
            self.budgets,
            self.records,
            self.due,
            body,
            moment,
        );
        let published = has_more(count, self.press);
        let publish = publish_at(self.press, self.records, moment);
        note_publish(&mut self.publishes, body, &answered, published, publish);
        self.counts = count_call(self.counts, body, &answered, published, moment);
        answered
    }

    fn package(&mut self, _name: &[u8]) -> Option<Declared> {
        None
    }

    fn page(&mut self, at: &[u8]) -> Result<Option<Page>, Off> {
        let circumstances = circumstances_of(self.records, self.counts, self.ending);
        let version = self.setup.place.version.as_str();
        let publishes = self.publishes.as_slice();
        show_page(
            self.setup,
            self.press,
            self.budgets,
            version,
            publishes,
            &circumstances,
            at,
        )
    }
}
