//! Pictures of an app's releases, as SVG and as Graphviz DOT.
//!
//! `picture_of` makes the `Picture` of an app by the reviews of its tracks: a node for each release, a goal for each target
//! of a cohort, and an arrow for each package on the least chains. `write_svg` writes it as an SVG image, `write_dot` as
//! a graph for `dot`. Read `specs/Scenes.antt` for what is drawn, `specs/Svg.antt` and `specs/Dot.antt` for how it is written, and
//! `specs/Labels.antt` for the words in both.
//!
//! It reads no file, prints nothing, and finds no chain.

mod arrows;
mod dot;
mod dot_escapes;
mod labels;
mod nodes;
mod picture;
mod spans;
mod svg;
mod svg_frame;
mod view;

pub use crate::pictures::arrows::Arrow;
pub use crate::pictures::dot::write_dot;
pub use crate::pictures::nodes::{Goal, Node};
pub use crate::pictures::picture::{Picture, picture_of};
pub use crate::pictures::svg::write_svg;
pub use crate::pictures::view::View;
