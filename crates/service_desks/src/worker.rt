ghost use Rattle.std.specs.Prelude.{◌≡◌, codes};

use crate::answering::answer_by;
use crate::held_view::HeldView;
use http_desks::{Answer, Declared, Desk, Off, Page};
use mirror_ledger::Till;
use publisher::View;
use std::sync::Wait;
use tallies::{CountChecks, Uncounted};

// rule: Desk of a worker
/// The desk of update checks, by a view of the published editions and a till.
///
/// It replies to the messages to `/service/update2/json`: 200 and the reply to a request, by the one edition that its
/// view enters for it; 400 and no body if the body is none, and then enters no edition and asks for nothing. It is off
/// if memory runs out, and what was granted before stays so; and if its view enters nothing, as after the press has
/// ended. A package is looked up in the edition that its view enters, and isn't found if there is none. It shows no page.
#[derive(Drop)]
pub struct Worker<'a, R: Wait + AllocGlobal, T: Till, C: CountChecks> {
    /// What waits for locks and has the memory of replies.
    pub rt: &'a R,
    /// The view.
    pub view: HeldView,
    /// What grants the bytes of update checks.
    pub till: T,
    /// What is shown each update check that was replied to.
    pub counter: C,
}

impl<'a, R: Wait + AllocGlobal, T: Till> Worker<'a, R, T, Uncounted> {
    /// Makes a worker of a view and a till, which keeps no tables and counts nothing.
    pub fn new(rt: &'a R, view: View, till: T) -> Worker<'a, R, T, Uncounted>
        ensures view { result.view ≡ view }
        ensures till { result.till ≡ till }
    {
        Worker::with_tables(rt, view, till, 0)
    }

    // rule: Tables that a worker keeps
    /// Makes a worker of a view and a till, which keeps so many tables of pinned clients' tracks at most, and counts
    /// nothing.
    ///
    /// Its replies are those of a worker that keeps none. A table takes some 24 bytes for each release of its app.
    /// Making the worker takes no memory. If memory runs out for keeping a table, it is not kept.
    pub fn with_tables(rt: &'a R, view: View, till: T, tables: usize) -> Worker<'a, R, T, Uncounted>
        ensures view { result.view ≡ view }
        ensures till { result.till ≡ till }
    {
        Worker::with_counter(rt, view, till, tables, Uncounted)
    }
}

impl<'a, R: Wait + AllocGlobal, T: Till, C: CountChecks> Worker<'a, R, T, C> {
    /// Makes a worker as `with_tables` does, whose counter is shown each update check that was replied to.
    ///
    /// The replies are the same.
    pub fn with_counter(
        rt: &'a R,
        view: View,
        till: T,
        tables: usize,
        counter: C,
    ) -> Worker<'a, R, T, C>
        ensures view { result.view ≡ view }
        ensures till { result.till ≡ till }
    {
        let view = HeldView::with_tables(view, tables);
        Worker {
            rt,
            view,
            till,
            counter,
        }
    }

    /// Gives the view and the till back.
    pub fn into_parts(self) -> (View, T)
        ensures view { result.0 ≡ self.entry.view }
        ensures till { result.1 ≡ self.entry.till }
    {
        let Worker { view, till, .. } = self;
        (view.into_view(), till)
    }
}

impl<R: Wait + AllocGlobal, T: Till, C: CountChecks> Desk for Worker<'_, R, T, C> {
    ghost use Rattle.std.specs.Prelude.{◌≡◌};
    ghost use Rattle.service_desks.specs.Workers.{IsCall};
    ghost use Rattle.replies.specs.Asking.{GrantsFirst};

    ghost path = { λ _. codes "/service/update2/json" };

    ghost content_type = { λ _. codes "application/json" };

    ghost steps = { λ old call new.
        (T.mirrors new.till ≡ T.mirrors old.till)
        × IsCall (T.mirrors old.till) (record { sight = old.view; asks = T.asks old.till }) call
        (record { sight = new.view; asks = T.asks new.till })
        × (T.alone old.till
        → T.alone new.till × GrantsFirst (T.mirrors old.till) (T.asks old.till) (T.asks new.till)) };

    fn path(&self) -> &str {
        "/service/update2/json"
    }

    fn content_type(&self) -> &str {
        "application/json"
    }

    fn answer(&mut self, body: &[u8], moment: u64) -> Result<Answer, Off> {
        let alloc = self.rt.alloc();
        answer_by(
            self.rt,
            alloc,
            &mut self.view,
            &mut self.till,
            &self.counter,
            body,
            moment,
        )
    }

    fn package(&mut self, name: &[u8]) -> Option<Declared> {
        self.view.find(name)
    }

    fn page(&mut self, _at: &[u8]) -> Result<Option<Page>, Off> {
        Ok(None)
    }
}
