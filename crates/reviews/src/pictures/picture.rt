//! What is drawn of an app.

ghost use Rattle.std.specs.Prelude.{◌≡◌, IfOk, true};
ghost use Rattle.values.specs.Ordered.{ascend};
ghost use Rattle.catalogue.specs.Validity.{is_release_below};
ghost use Rattle.reviews.specs.Scenes.{picture_of};

use crate::pictures::arrows::{Arrow, arrows_of};
use crate::pictures::nodes::{Goal, Node, goals_of, nodes_of};
use crate::pictures::view::View;
use crate::review::TrackReview;
use catalogue::App;
use std::alloc::{AllocError, Global};
use values::Items;

/// What is drawn of an app.
pub struct Picture {
    /// Its releases, by ascending version.
    pub nodes: Items<Node>,
    /// The targets of the cohorts that are drawn.
    pub goals: Items<Goal>,
    /// The packages on the least chains that are drawn, each once.
    pub arrows: Items<Arrow>,
}

// Written out, so that no caller proves again how each part is dropped.
impl Drop for Picture {
    fn drop(self) {
        let Picture {
            nodes: _,
            goals: _,
            arrows: _,
        } = self;
    }
}

// rule: Picture of an app
/// Makes the picture of an app, which is the one of the view, by the reviews of the catalogue's tracks.
///
/// Without a release in the view it has the first package of the chain of each release, which is all packages of all
/// chains; with one, the packages that follow it one after the other. Out of memory is the only error.
pub fn picture_of(
    alloc: Global,
    app: &App,
    view: &View,
    reviews: &[TrackReview],
) -> Result<Picture, AllocError>
    requires { ascend is_release_below app.now.releases ≡ true }
    ensures { IfOk result (λ picture. picture ≡ picture_of app.now view.now reviews.now) }
{
    let nodes = nodes_of(alloc, app, view, reviews)?;
    let goals = goals_of(alloc, view, reviews)?;
    let arrows = arrows_of(alloc, app, view, reviews)?;
    Ok(Picture {
        nodes: Items::new(nodes),
        goals: Items::new(goals),
        arrows: Items::new(arrows),
    })
}
