ghost use Rattle.std.specs.Prelude.{◌≡◌, ◌<◌, ◌≤◌, ◌⊎◌, [], ◌∷◌, All, length, IfErr, IfOk, MatchResult, Ok, Err};
ghost use Rattle.std.specs.Arc.{arc_value};
ghost use Rattle.publisher.specs.Beginnings.{StartsWith};
ghost use Rattle.editions.specs.Editions.{Continues};
ghost use Rattle.left_right.specs.Sides.{view as heard_by};
ghost use Rattle.publisher.specs.declared.fault.PublishError.TheVariants.{Memory, NoPlace};
ghost use Rattle.publisher.specs.Publishing.{FailsToOpen, Opens, OpensWith, Prepares, Publishes, Shows};
ghost use Rattle.publisher.specs.Sights.{fresh};

use crate::fault::PublishError;
use crate::prepared::Prepared;
use crate::receipt::Receipt;
use crate::rule::PressWriter;
use crate::steps::{new_writer, show, views_of};
use crate::view::View;
use catalogue::Batch;
use editions::{Edition, NextError};
use par_tables::Gate;
use std::alloc::{AllocError, Global};
use std::marker::Model;
use std::sync::{Arc, Wait};
use std::thread::Threads;

/// What publishes editions, which contracts see as the published history. It is not `Drop`: end it by `end`.
pub struct Press {
    // Empty only within `show`.
    writer: Option<PressWriter>,
}

impl Model for Press {
    ghost use Rattle.std.specs.Prelude.{◌≡◌, [], ◌∷◌, IsSomeAnd};
    ghost use Rattle.std.specs.Arc.{arc_value};
    ghost use Rattle.std.specs.Option.{option_map_or};
    ghost use Rattle.left_right.specs.Sides.{view as heard_by};
    ghost use Rattle.catalogue.specs.Histories.{History};

    ghost Value = { History };

    ghost view = { λ p. option_map_or (λ w. arc_value w.desk.shown.value.edition) p.writer [] };

    ghost invariant = { λ p.
        IsSomeAnd p.writer (λ w. heard_by w.desk.place ≡ arc_value w.desk.shown.value.edition ∷ []) };
}

// The edition after another with one more batch.
fn next_of<R: Threads, G: Gate + Sync>(
    rt: &R,
    alloc: Global,
    edition: &Edition,
    batch: Batch,
    workers: usize,
    gate: &G,
) -> Result<Arc<Edition>, NextError>
    requires { (1 ≤ workers) × (workers ≤ 16) }
    ensures { MatchResult result
        (λ next. Continues edition.now batch (Ok (arc_value next)))
        (λ error. Continues edition.now batch (Err error)) }
{
    let next = edition.next_with(rt, batch, workers, gate)?;
    Ok(Arc::new(alloc, next)?)
}

impl Press {
    /// Borrows the published edition.
    pub fn edition(&self) -> &Edition
        ensures { result.now ≡ self.now }
    {
        self.published()
    }

    pub(crate) fn published(&self) -> &Arc<Edition>
        ensures { arc_value result.now ≡ self.now }
    {
        match &self.writer {
            Some(writer) => &writer.published().edition,
            None => unreachable!(),
        }
    }

    fn show<R: Wait>(&mut self, rt: &R, next: Arc<Edition>) -> Result<(), AllocError>
        requires { StartsWith (arc_value next) self.old }
        ensures { MatchResult result (λ _. self.new ≡ arc_value next) (λ _. self.new ≡ self.old) }
    {
        let Some(writer) = self.writer.take() else {
            unreachable!()
        };
        let (writer, shown) = show(writer, rt, next);
        if let Some(before) = self.writer.replace(writer) {
            let _none = before.take(rt);
        }
        shown
    }

    /// Returns a receipt of the published edition, which takes no memory.
    ///
    /// Fails if the edition has 2^63 owners.
    pub fn receipt(&self) -> Result<Receipt, AllocError>
        ensures { IfOk result (λ receipt. receipt ≡ self.now) }
    {
        Receipt::of(self.published())
    }

    // rule: Publishing
    // rule: Stale base
    /// Makes the edition with one more batch on the base, the number of the edition that the batch was made for, and
    /// shows it to nobody.
    ///
    /// Returns `Stale` if another edition is published, then the error of `Edition::next`. The tables that the batch may
    /// change are made in `workers` pieces, from 1 to 16, under `gate`, as `Edition::next_with` does.
    pub fn prepare<R: Threads, G: Gate + Sync>(
        &self,
        rt: &R,
        alloc: Global,
        base: u64,
        batch: Batch,
        workers: usize,
        gate: &G,
    ) -> Result<Prepared, PublishError>
        requires { (1 ≤ workers) × (workers ≤ 16) }
        ensures { Prepares self.now base batch result }
    {
        if self.edition().number() != base {
            return Err(PublishError::Stale(Receipt::of(self.published())?));
        }
        let next = next_of(rt, alloc, self.edition(), batch, workers, gate)?;
        Ok(Prepared::of(next))
    }

    // rule: Publishing
    /// Publishes an edition that was prepared from the published one.
    ///
    /// It waits for views that still read the edition before the published one. Without memory it gives the prepared
    /// edition back, and the published one is as before.
    pub fn show_prepared<R: Wait>(
        &mut self,
        rt: &R,
        prepared: Prepared,
    ) -> Result<Receipt, Prepared>
        requires { StartsWith prepared self.old }
        ensures { Shows self.old prepared result self.new }
    {
        let Ok(next) = prepared.share() else {
            return Err(prepared);
        };
        match self.show(rt, next) {
            Ok(()) => Ok(prepared.into_receipt()),
            Err(_) => Err(prepared),
        }
    }

    // rule: Publishing
    // rule: Stale base
    /// Publishes a batch on the base, the number of the edition that it was made for: prepares the next edition and shows
    /// it.
    ///
    /// Returns the errors of `prepare`, or `Memory`; the published edition is then as before. A batch is published whole
    /// or not at all.
    pub fn publish<R: Threads + Wait, G: Gate + Sync>(
        &mut self,
        rt: &R,
        alloc: Global,
        base: u64,
        batch: Batch,
        workers: usize,
        gate: &G,
    ) -> Result<Receipt, PublishError>
        requires { (1 ≤ workers) × (workers ≤ 16) }
        ensures { Publishes self.old base batch result self.new }
    {
        let prepared = self.prepare(rt, alloc, base, batch, workers, gate)?;
        match self.show_prepared(rt, prepared) {
            Ok(receipt) => Ok(receipt),
            Err(_) => Err(PublishError::Memory),
        }
    }

    /// Ends the press: no view enters an edition any more. It waits for those that still read one.
    pub fn end<R: Wait>(self, rt: &R) {
        let Press { writer } = self;
        if let Some(writer) = writer {
            let _published = writer.take(rt);
        }
    }
}

// The first edition, of one batch.
fn first_of<R: Threads, G: Gate + Sync>(
    rt: &R,
    alloc: Global,
    batch: Batch,
    workers: usize,
    gate: &G,
) -> Result<Edition, PublishError>
    requires { (1 ≤ workers) × (workers ≤ 16) }
    ensures { MatchResult result (λ first. Continues [] batch (Ok first)) (FailsToOpen batch) }
{
    match Edition::empty(alloc).next_with(rt, batch, workers, gate) {
        Ok(first) => Ok(first),
        Err(NextError::Refused(refused)) => Err(PublishError::Refused(refused)),
        Err(NextError::HistoryFull) => unreachable!(),
        Err(NextError::Memory) => Err(PublishError::Memory),
    }
}

// The press and the views of a writer, which is ended if they could not be made.
fn opened<R: Wait>(
    rt: &R,
    alloc: Global,
    writer: PressWriter,
    readers: usize,
) -> Result<(Press, Vec<View>), PublishError>
    requires { heard_by writer.desk.place ≡ arc_value writer.desk.shown.value.edition ∷ [] }
    ensures made { IfOk result (λ made. (made.0 ≡ arc_value writer.desk.shown.value.edition)
        × (length made.1.items ≡ readers)
        × All (λ sight. sight ≡ fresh (arc_value writer.desk.shown.value.edition)) made.1.items) }
    ensures err { IfErr result (λ error. (error ≡ NoPlace) ⊎ (error ≡ Memory)) }
{
    let mut writer = writer;
    match views_of(&mut writer, alloc, readers) {
        Ok(views) => {
            let press = Press {
                writer: Some(writer),
            };
            Ok((press, views))
        }
        Err(error) => {
            let _published = writer.take(rt);
            Err(error)
        }
    }
}

// rule: Opening
/// Publishes an edition that was made before, and makes a press and so many views that have seen it.
///
/// There are 1 to 8 views. Returns `NoPlace` if there is no place for a view.
pub fn open_edition<R: Wait>(
    rt: &R,
    alloc: Global,
    edition: Edition,
    readers: usize,
) -> Result<(Press, Vec<View>), PublishError>
    requires { (0 < readers) × (readers ≤ 8) }
    ensures { OpensWith edition readers result }
{
    let Ok(first) = Arc::new(alloc, edition) else {
        return Err(PublishError::Memory);
    };
    let writer = new_writer(alloc, readers)?;
    let (writer, shown) = show(writer, rt, first);
    if shown.is_err() {
        let _published = writer.take(rt);
        return Err(PublishError::Memory);
    }
    opened(rt, alloc, writer, readers)
}

// rule: Opening
/// Publishes edition 1, of one batch, and makes a press and so many views that have seen it.
///
/// There are 1 to 8 views. The tables are made in `workers` pieces, from 1 to 16, under `gate`, as
/// `Edition::next_with` does. Returns the batch's first rejected edit, then `NoPlace` if there is no place for a view.
pub fn open<R: Threads + Wait, G: Gate + Sync>(
    rt: &R,
    alloc: Global,
    batch: Batch,
    readers: usize,
    workers: usize,
    gate: &G,
) -> Result<(Press, Vec<View>), PublishError>
    requires readers { (0 < readers) × (readers ≤ 8) }
    requires workers { (1 ≤ workers) × (workers ≤ 16) }
    ensures { Opens batch readers result }
{
    let first = first_of(rt, alloc, batch, workers, gate)?;
    open_edition(rt, alloc, first, readers)
}
