//! The steps of the writer.

ghost use Rattle.std.specs.Prelude.{◌≡◌, ◌⊎◌, ◌^◌, ◌<◌, [], ◌∷◌, length, All, IfSome, IfOk, IfErr, MatchResult};
ghost use Rattle.std.specs.Arc.{arc_value};
ghost use Rattle.left_right.specs.Sides.{view as heard_by};
ghost use Rattle.publisher.specs.Beginnings.{StartsWith};
ghost use Rattle.publisher.specs.Sights.{fresh};
ghost use Rattle.publisher.specs.declared.fault.PublishError.TheVariants.{Memory, NoPlace};

use crate::fault::PublishError;
use crate::rule::{Notes, PressWriter, Sees, ViewReader};
use crate::shown::Shown;
use crate::view::View;
use editions::Edition;
use std::alloc::{AllocError, Global};
use std::sync::{Arc, Wait};

// A writer that shows the edition of no batches, which it has not heard.
pub(crate) fn new_writer(alloc: Global, readers: usize) -> Result<PressWriter, AllocError>
    requires { (0 < readers) × (readers < 2 ^ 32) }
    ensures { IfOk result (λ w. (arc_value w.desk.shown.value.edition ≡ []) × (heard_by w.desk.place ≡ [])) }
{
    let edition = Arc::new(alloc, Edition::empty(alloc))?;
    let second = Shown {
        edition: Arc::try_clone(&edition)?,
    };
    PressWriter::new(alloc, Shown { edition }, second, readers)
}

// Shows an edition that begins with the shown one.
pub(crate) fn show<R: Wait>(
    writer: PressWriter,
    rt: &R,
    next: Arc<Edition>,
) -> (PressWriter, Result<(), AllocError>)
    requires { StartsWith (arc_value next) (arc_value writer.desk.shown.value.edition) }
    ensures shown { MatchResult result.1
        (λ _. arc_value result.0.desk.shown.value.edition ≡ arc_value next)
        (λ _. arc_value result.0.desk.shown.value.edition ≡ arc_value writer.desk.shown.value.edition) }
    ensures heard { MatchResult result.1
        (λ _. heard_by result.0.desk.place ≡ arc_value next ∷ [])
        (λ _. heard_by result.0.desk.place ≡ heard_by writer.desk.place) }
{
    let mut writer = writer;
    let Ok(()) = writer.append(next) else {
        return (writer, Err(AllocError));
    };
    writer.publish_as::<Sees, R>(rt)
}

// A reader that has heard what the writer has; `None` if there is no place for one.
fn new_reader(writer: &mut PressWriter) -> Option<ViewReader>
    ensures reader { IfSome result (λ r. heard_by r.place ≡ heard_by writer.old.desk.place) }
    ensures heard { heard_by writer.new.desk.place ≡ heard_by writer.old.desk.place }
    ensures shown { writer.new.desk.shown ≡ writer.old.desk.shown }
{
    let mut reader = match writer.factory().reader() {
        Ok(reader) => reader,
        Err(_) => return None,
    };
    reader.learn::<Notes>(writer.tell::<Notes>());
    Some(reader)
}

// So many views that have seen the edition that the writer shows.
pub(crate) fn views_of(
    writer: &mut PressWriter,
    alloc: Global,
    readers: usize,
) -> Result<Vec<View>, PublishError>
    requires { heard_by writer.old.desk.place ≡ arc_value writer.old.desk.shown.value.edition ∷ [] }
    ensures views { IfOk result (λ views. (length views.items ≡ readers)
        × All (λ view. view ≡ fresh (arc_value writer.old.desk.shown.value.edition)) views.items) }
    ensures err { IfErr result (λ error. (error ≡ NoPlace) ⊎ (error ≡ Memory)) }
    ensures heard { heard_by writer.new.desk.place ≡ heard_by writer.old.desk.place }
    ensures shown { writer.new.desk.shown ≡ writer.old.desk.shown }
{
    let mut views = Vec::new(alloc);
    for _index in 0..readers {
        let Some(reader) = new_reader(writer) else {
            return Err(PublishError::NoPlace);
        };
        let view = View::new(reader, &writer.published().edition);
        if views.push(view).is_err() {
            return Err(PublishError::Memory);
        }
    }
    Ok(views)
}
