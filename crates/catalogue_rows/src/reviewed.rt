// The reviews of a small catalogue after a change.

ghost use Rattle.par_tables.specs.Tables.{AreTables};

use catalogue::Catalogue;
use fixtures::{DEMO, catalogue_of_script, keep};
use par_tables::tables;
use price_cert::Certified;
use reviews::{LaterReviews, Reviewed, review_catalogue, review_later};
use std::alloc::Global;

// The reviews of a catalogue after no change, by its tables, with flags of the apps that it keeps.
fn reviewed_again(
    alloc: Global,
    catalogue: &'static Catalogue,
    tables: &[Certified],
    kept: &[bool],
) -> Option<&'static LaterReviews>
    requires { AreTables catalogue.now tables.now }
{
    let reviews = keep(alloc, review_catalogue(alloc, catalogue, tables).ok()?)?;
    let before = Reviewed {
        catalogue,
        tracks: reviews.as_slice(),
    };
    keep(
        alloc,
        review_later(alloc, &before, kept, catalogue, tables).ok()?,
    )
}

// How many of them there are, and how many are copies.
fn counts_of(alloc: Global, kept: &[bool]) -> Option<(usize, usize)> {
    let catalogue = catalogue_of_script(alloc, DEMO, "")?;
    let tables = keep(alloc, tables(alloc, catalogue).ok()?)?;
    let later = reviewed_again(alloc, catalogue, tables.as_slice(), kept)?;
    let sources = later.sources.iter();
    let copies = sources.filter(|source| source.is_some()).count();
    Some((later.tracks.len(), copies))
}

// rule: Review of a catalogue
#[test]
fn reviews_of_a_kept_app_are_copies(rt: HostRuntime) {
    assert!(rt; counts_of(rt.alloc(), &[true]) == Some((4, 4)));
    assert!(rt; counts_of(rt.alloc(), &[false]) == Some((4, 0)));
}
