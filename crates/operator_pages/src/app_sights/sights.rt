//! What is seen of each app.

ghost use Rattle.std.specs.Prelude.{◌≡◌, IfOk, map, true};
ghost use Rattle.catalogue.specs.Validity.{is_release_below};
ghost use Rattle.values.specs.Ordered.{ascend};
ghost use Rattle.par_tables.specs.Tables.{AreTables};
ghost use Rattle.operator_pages.specs.AppSights.{AreSights, AreSightsIf, drawing_of, sight_by, sights_by, unseen, view_of};

use crate::app_sights::limits::{MAX_DRAWN, is_small};
use crate::app_sights::stuck::stuck_list;
use crate::sights::AppSight;
use catalogue::{App, Catalogue};
use price_cert::Certified;
use reviews::{TrackReview, View, picture_of, review_catalogue, write_svg};
use std::alloc::{AllocError, Global};
use values::Text;

fn view_of(app: usize) -> View
    ensures { result ≡ view_of app }
{
    View {
        app,
        cohort: None,
        from: None,
    }
}

// rule: Drawing of an app
fn drawing_of(
    alloc: Global,
    reviews: &[TrackReview],
    index: usize,
    app: &App,
) -> Result<Option<Text>, AllocError>
    requires { ascend is_release_below app.now.releases ≡ true }
    ensures { IfOk result (λ drawing. drawing ≡ drawing_of reviews.now index app.now) }
{
    if MAX_DRAWN < app.releases.len() {
        return Ok(None);
    }
    let picture = picture_of(alloc, app, &view_of(index), reviews)?;
    let image = write_svg(alloc, app, &picture)?;
    Ok(Some(Text::new(image)))
}

// What is seen of the app at an index.
fn sight_by(
    alloc: Global,
    reviews: &[TrackReview],
    index: usize,
    app: &App,
) -> Result<AppSight, AllocError>
    requires { ascend is_release_below app.now.releases ≡ true }
    ensures { IfOk result (λ sight. sight ≡ sight_by reviews.now index app.now) }
{
    let drawing = drawing_of(alloc, reviews, index, app)?;
    let stuck = stuck_list(alloc, reviews, index, app)?;
    Ok(AppSight {
        stuck: Some(stuck),
        drawing,
    })
}

// What is seen of each app of a catalogue, by the reviews of its tracks.
fn sights_by(
    alloc: Global,
    reviews: &[TrackReview],
    catalogue: &Catalogue,
) -> Result<Vec<AppSight>, AllocError>
    ensures { IfOk result (λ sights. sights.items ≡ sights_by reviews.now catalogue.now) }
{
    catalogue.validity();
    let apps = catalogue.apps();
    let mut sights = Vec::new(alloc);
    for index in 0..apps.len() {
        let sight = sight_by(alloc, reviews, index, &apps[index])?;
        sights.push(sight)?;
    }
    Ok(sights)
}

// Nothing is seen of these apps.
fn unseen(alloc: Global, apps: &[App]) -> Result<Vec<AppSight>, AllocError>
    ensures { IfOk result (λ sights. sights.items ≡ map unseen apps.now) }
{
    let mut sights = Vec::new(alloc);
    for _app in apps {
        sights.push(AppSight {
            stuck: None,
            drawing: None,
        })?;
    }
    Ok(sights)
}

// What is seen of a catalogue that is looked at.
fn seen(
    alloc: Global,
    catalogue: &Catalogue,
    tables: &[Certified],
) -> Result<Vec<AppSight>, AllocError>
    requires { AreTables catalogue.now tables.now }
    ensures { IfOk result (λ sights. AreSightsIf true catalogue.now sights.items) }
{
    let reviews = review_catalogue(alloc, catalogue, tables)?;
    sights_by(alloc, reviews.as_slice(), catalogue)
}

// rule: Sights of a catalogue
/// Makes what is seen of each app, in their order, by the certified tables of the catalogue's tracks.
///
/// Nothing is seen of a catalogue of more than 4096 apps and releases together, or with an app of more than 16 cohorts.
/// An app of more than 64 releases isn't drawn. Out of memory is the only error.
pub fn sights_of(
    alloc: Global,
    catalogue: &Catalogue,
    tables: &[Certified],
) -> Result<Vec<AppSight>, AllocError>
    requires { AreTables catalogue.now tables.now }
    ensures { IfOk result (λ sights. AreSights catalogue.now sights.items) }
{
    if is_small(catalogue.apps()) {
        seen(alloc, catalogue, tables)
    } else {
        unseen(alloc, catalogue.apps())
    }
}
