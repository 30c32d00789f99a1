// A view that a desk holds.

ghost use Rattle.std.specs.Prelude.{◌≡◌, MatchResult, Ok, Err};
ghost use Rattle.service_desks.specs.Workers.{Finds, Replies};
ghost use Rattle.replies.specs.Asking.{GrantsFirst};

use crate::kept_tables::KeptTables;
use crate::replying::{find_by, reply_by};
use http_desks::{Declared, Off};
use mirror_ledger::Till;
use omaha_json::Request;
use publisher::View;
use replies::Asked;
use std::alloc::Global;
use std::marker::Model;
use std::sync::Wait;
use tallies::CountChecks;

/// A view that enters an edition for each call, which contracts see as the view.
///
/// With it are tables of pinned clients' tracks, of the edition that it has entered last for a request.
pub struct HeldView {
    // Empty only within a method.
    view: Option<View>,
    kept: KeptTables,
}

// Written out, so that no caller proves again how each part is dropped.
impl Drop for HeldView {
    fn drop(self) {
        let HeldView { view: _, kept: _ } = self;
    }
}

impl Model for HeldView {
    ghost use Rattle.std.specs.Prelude.{[], IsSome};
    ghost use Rattle.std.specs.Option.{option_map_or};
    ghost use Rattle.publisher.specs.Sights.{Sight, fresh};

    ghost Value = { Sight };

    ghost use Rattle.service_desks.specs.Kept.{AreKept};

    ghost view = { λ held. option_map_or (λ view. view) held.view (fresh []) };

    ghost invariant = { λ held.
        IsSome held.view × AreKept (option_map_or (λ view. view) held.view (fresh [])) held.kept };
}

impl HeldView {
    /// Holds a view, and keeps no tables.
    pub fn new(view: View) -> HeldView
        ensures { result ≡ view }
    {
        HeldView::with_tables(view, 0)
    }

    /// Holds a view, and keeps so many tables of pinned clients' tracks at most. It takes no memory.
    pub fn with_tables(view: View, capacity: usize) -> HeldView
        ensures { result ≡ view }
    {
        HeldView {
            view: Some(view),
            kept: KeptTables::new(capacity),
        }
    }

    /// Gives the view.
    pub fn into_view(self) -> View
        ensures { result ≡ self }
    {
        let HeldView { view, kept: _ } = self;
        match view {
            Some(view) => view,
            None => unreachable!(),
        }
    }

    /// Replies to a request from the edition that the view enters, by what a till grants, and shows a counter what the
    /// update checks came to.
    pub fn reply<T: Till, R: Wait, C: CountChecks>(
        &mut self,
        rt: &R,
        alloc: Global,
        till: &mut T,
        counter: &C,
        moment: u64,
        request: &Request,
    ) -> Result<Vec<u8>, Off>
        ensures replies { MatchResult result
            (λ text. Replies (T.mirrors till.old) (record { sight = self.old; asks = T.asks till.old }) request.now moment
            (Ok text.items) (record { sight = self.new; asks = T.asks till.new }))
            (λ off. Replies (T.mirrors till.old) (record { sight = self.old; asks = T.asks till.old }) request.now moment
            (Err off) (record { sight = self.new; asks = T.asks till.new })) }
        ensures mirrors { T.mirrors till.new ≡ T.mirrors till.old }
        ensures alone { T.alone till.old
            → T.alone till.new × GrantsFirst (T.mirrors till.old) (T.asks till.old) (T.asks till.new) }
    {
        let Some(view) = self.view.take() else {
            unreachable!()
        };
        let asked = Asked { request, moment };
        let (reply, view) = reply_by(rt, alloc, view, &mut self.kept, till, counter, &asked);
        self.view = Some(view);
        reply
    }

    /// Finds what is declared of a package by the edition that the view enters.
    pub(crate) fn find(&mut self, name: &[u8]) -> Option<Declared>
        ensures { Finds self.old name.now result self.new }
    {
        let Some(view) = self.view.take() else {
            unreachable!()
        };
        let (found, view) = find_by(view, name);
        self.view = Some(view);
        found
    }
}
