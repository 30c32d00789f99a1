//! What is drawn of a catalogue.

ghost use Rattle.std.specs.Prelude.{◌≡◌};
ghost use Rattle.reviews.specs.Scenes.{is_shown, is_of};

use crate::review::TrackReview;

/// What is drawn of a catalogue.
#[derive(Clone, Copy)]
pub struct View {
    /// The index of the app, in the order of addition.
    pub app: usize,
    /// The index of the one cohort whose clients are drawn, or `None` for all of the app's.
    pub cohort: Option<usize>,
    /// The index of the one release whose chains are drawn, or `None` for those of all releases.
    pub from: Option<usize>,
}

// Whether a cohort is the chosen one, if one is chosen.
fn is_of(chosen: Option<usize>, cohort: usize) -> bool
    ensures { result ≡ is_of chosen cohort }
{
    match chosen {
        Some(chosen) => chosen == cohort,
        None => true,
    }
}

/// Whether the clients of a track are drawn.
pub(crate) fn is_shown(view: &View, review: &TrackReview) -> bool
    ensures { result ≡ is_shown view.now review.now }
{
    view.app == review.key.app && is_of(view.cohort, review.key.cohort)
}
