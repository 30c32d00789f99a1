// The command `graph`.

ghost use Rattle.std.specs.Prelude.{◌≡◌, ◌<◌, IfErr, IfOk, IfSome, Ok, Err, length, option_map, true};
ghost use Rattle.catalogue.specs.Validity.{IsValidApp};
ghost use Rattle.editions.specs.Editions.{content_of};
ghost use Rattle.reviews.specs.Scenes.{picture_of};
ghost use Rattle.omaha_commands.specs.Graphing.{Draws, IsDrawn, IsGraph, PrintsGraph, cohort_in, drawn_string, release_in, release_named, subject_in, view_in};
ghost use Rattle.streams.specs.Streams.{Known};

use catalogue::{App, Catalogue, Version};
use certificates::Fault;
use editions::Edition;
use failures::Failure;
use omaha_arguments::Graph;
use profiles::{open_profile, print};
use reviews::{Picture, TrackReview, View, picture_of, review_catalogue, write_dot, write_svg};
use std::alloc::{AllocError, Global};
use std::thread::Threads;
use streams::{Disk, WriteWhole};
use values::Text;

// The index of the cohort that is named, if one is; nothing if the app has no such cohort.
fn cohort_in(catalogue: &Catalogue, app: usize, name: &Option<Text>) -> Option<Option<usize>>
    requires { app < length catalogue.now }
    ensures { result ≡ cohort_in catalogue.now app name.now }
{
    match name {
        None => Some(None),
        Some(name) => catalogue
            .find_cohort(app, name.as_str())
            .map(|cohort| Some(cohort)),
    }
}

// The index of the release of a version as a publisher writes it.
fn release_named(catalogue: &Catalogue, app: usize, name: &str) -> Option<usize>
    requires { app < length catalogue.now }
    ensures { result ≡ release_named catalogue.now app name.now }
{
    let (version, _) = Version::parse(name)?;
    catalogue.find_release(app, &version)
}

// The index of the release that is named, if one is; nothing if the app has no such release.
fn release_in(catalogue: &Catalogue, app: usize, name: &Option<Text>) -> Option<Option<usize>>
    requires { app < length catalogue.now }
    ensures { result ≡ release_in catalogue.now app name.now }
{
    match name {
        None => Some(None),
        Some(name) => release_named(catalogue, app, name.as_str()).map(|release| Some(release)),
    }
}

// What is drawn, if all that is named is there.
fn view_in(catalogue: &Catalogue, asked: &Graph) -> Option<View>
    ensures { result ≡ view_in catalogue.now asked.now }
{
    let app = catalogue.app(asked.app.as_str())?;
    let cohort = cohort_in(catalogue, app, &asked.cohort)?;
    let from = release_in(catalogue, app, &asked.from)?;
    Some(View { app, cohort, from })
}

// The app that is drawn, and what is drawn of it.
#[derive(Clone, Copy)]
struct Subject<'a> {
    app: &'a App,
    view: View,
}

fn subject_in<'a>(catalogue: &'a Catalogue, asked: &Graph) -> Option<Subject<'a>>
    ensures subject { option_map (λ subject. (subject.app.now, subject.view)) result ≡ subject_in catalogue.now asked.now }
    ensures valid { IfSome result (λ subject. IsValidApp subject.app.now) }
{
    catalogue.validity();
    let view = view_in(catalogue, asked)?;
    let app = catalogue.apps().get(view.app)?;
    Some(Subject { app, view })
}

// A picture as it is printed.
fn drawn_string(
    alloc: Global,
    dot: bool,
    app: &App,
    picture: &Picture,
) -> Result<Vec<u8>, AllocError>
    ensures { IfOk result (λ text. text.items ≡ drawn_string dot app.now picture.now) }
{
    if dot {
        Ok(write_dot(alloc, app, picture)?.into_bytes())
    } else {
        Ok(write_svg(alloc, app, picture)?.into_bytes())
    }
}

// The picture of an app by the reviews of a catalogue, as it is printed.
fn draw_reviews(
    alloc: Global,
    dot: bool,
    subject: &Subject<'_>,
    reviews: &[TrackReview],
) -> Result<Vec<u8>, AllocError>
    requires { IsValidApp subject.now.app.now }
    ensures { IfOk result (λ text. text.items ≡ drawn_string dot subject.now.app.now (picture_of subject.now.app.now subject.now.view reviews.now)) }
{
    let picture = picture_of(alloc, subject.app, &subject.view, reviews)?;
    drawn_string(alloc, dot, subject.app, &picture)
}

// The picture of an edition's app, as it is printed.
fn draw_edition(
    alloc: Global,
    dot: bool,
    edition: &Edition,
    subject: &Subject<'_>,
) -> Result<Vec<u8>, AllocError>
    requires { IsValidApp subject.now.app.now }
    ensures { IfOk result (λ text. IsDrawn (content_of edition.now) dot subject.now.app.now subject.now.view text.items) }
{
    let reviews = review_catalogue(alloc, edition.catalogue(), edition.tables())?;
    draw_reviews(alloc, dot, subject, reviews.as_slice())
}

// rule: Drawn app
// The picture of the app that is named, as it is printed.
fn draw(alloc: Global, asked: &Graph, edition: &Edition) -> Result<Vec<u8>, Failure>
    ensures ok { IfOk result (λ text. Draws (content_of edition.now) asked.now (Ok text.items)) }
    ensures err { IfErr result (λ failure. Draws (content_of edition.now) asked.now (Err failure)) }
{
    let Some(subject) = subject_in(edition.catalogue(), asked) else {
        return Err(Failure::Certificate(Fault::NoTrack));
    };
    match draw_edition(alloc, asked.dot, edition, &subject) {
        Ok(text) => Ok(text),
        Err(_) => Err(Failure::Memory),
    }
}

// The picture of a profile's app, as it is printed.
fn draw_profile<R: Disk + AllocGlobal + Threads + Sync>(
    rt: &R,
    asked: &Graph,
) -> Result<Vec<u8>, Failure>
    ensures ok { IfOk result (λ text. IsGraph (R.file_at rt.now) asked.now (Ok text.items)) }
    ensures err { IfErr result (λ failure. IsGraph (R.file_at rt.now) asked.now (Err failure)) }
{
    match open_profile(rt, &asked.profile, 1) {
        Ok(service) => draw(rt.alloc(), asked, &service.edition),
        Err(failure) => Err(failure),
    }
}

// rule: Picture of a profile's app
/// Prints the picture of a profile's app, as an SVG image or as a graph for Graphviz' `dot`.
///
/// Fails, in this order, with the profile's file, its first fault and its first rejected edit; and with the line `no track`
/// if there is no such app, or if the app has no such cohort or release; each time nothing is printed. If the writer fails,
/// a first part is printed.
pub fn graph_on<R: Disk + AllocGlobal + Threads + Sync, W: WriteWhole>(
    rt: &R,
    asked: &Graph,
    writer: &mut W,
) -> Result<(), Failure>
    ensures { (input : Known) → PrintsGraph (R.file_at rt.now) asked.now
        (record { input = input; output = W.output writer.old })
        (record { input = input; output = W.output writer.new }) result }
{
    match draw_profile(rt, asked) {
        Ok(text) => print(text.as_slice(), writer),
        Err(failure) => Err(failure),
    }
}
