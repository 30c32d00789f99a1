//! Pictures as SVG images.

ghost use Rattle.std.specs.Prelude.{◌≡◌, ◌++◌, IfOk, OnOk, string_bytes};
ghost use Rattle.reviews.specs.Svg.{all_arrows_svg, all_nodes_svg, arrow_bytes, arrow_line, arrow_path, arrow_svg, arrow_title, curve_end, curve_start, curve_string, label_element, node_head, node_line, node_svg, node_element, node_title, shape_of, svg_string, tip_title};

use crate::markup::escaped;
use crate::names::spelled_at;
use crate::pictures::arrows::Arrow;
use crate::pictures::labels::{
    arrow_tip, bytes_of, goals_string, kind_word, node_tip, pen_string, word_if,
};
use crate::pictures::nodes::{Goal, Node};
use crate::pictures::picture::Picture;
use crate::pictures::spans::{bow_of, bytes_end, bytes_row, end_of, row_of, start_of};
use crate::pictures::svg_frame::frame_string;
use catalogue::App;
use std::alloc::{AllocError, Global};

// An element of what is said of a release or of a package.
fn tip_title(alloc: Global, tip: &str) -> Result<String, AllocError>
    ensures { IfOk result (λ title. string_bytes title ≡ tip_title tip.now) }
{
    let tip = escaped(alloc, tip)?;
    let tip = tip.as_str();
    format!(in alloc; "<title>{tip}</title>")
}

// A diamond for a stone, and a circle for another release.
fn shape_of(node: &Node) -> &'static str
    ensures { result.now ≡ shape_of node.now }
{
    if node.stone {
        "<path class=\"mark\" d=\"M0-12 12 0 0 12-12 0Z\"/>"
    } else {
        "<circle class=\"mark\" r=\"9\"/>"
    }
}

fn node_title(alloc: Global, app: &App, node: &Node) -> Result<String, AllocError>
    ensures { IfOk result (λ title. string_bytes title ≡ node_title app.now node.now) }
{
    let tip = node_tip(alloc, app, node)?;
    tip_title(alloc, tip.as_str())
}

fn label_element(alloc: Global, version: &str, goals: &str) -> Result<String, AllocError>
    ensures { IfOk result (λ text. string_bytes text ≡ label_element version.now goals.now) }
{
    let version = escaped(alloc, version)?;
    let goals = escaped(alloc, goals)?;
    let version = version.as_str();
    let goals = goals.as_str();
    format!(in alloc; "<text x=\"22\" y=\"5\">{version}<tspan dx=\"4\">{goals}</tspan></text>")
}

fn node_element(alloc: Global, app: &App, goals: &[Goal], node: &Node) -> Result<String, AllocError>
    ensures { IfOk result (λ text. string_bytes text ≡ node_element app.now goals.now node.now) }
{
    let goals = goals_string(alloc, app, node.release, goals)?;
    label_element(alloc, spelled_at(app, node.release), goals.as_str())
}

// What a release is, as classes of the style, and how far down it is.
fn node_head(alloc: Global, node: &Node) -> Result<String, AllocError>
    ensures { IfOk result (λ head. string_bytes head ≡ node_head node.now) }
{
    let stone = word_if(node.stone, " stone");
    let withdrawn = word_if(node.withdrawn, " withdrawn");
    let goal = word_if(node.goal, " goal");
    let stuck = word_if(node.stuck, " stuck");
    let row = row_of(node.release);
    format!(in alloc;
        "<g class=\"release{stone}{withdrawn}{goal}{stuck}\" transform=\"translate(0 {row})\">"
    )
}

// The line of a release with its parts.
fn node_line(alloc: Global, node: &Node, title: &str, text: &str) -> Result<String, AllocError>
    ensures { IfOk result (λ line. string_bytes line ≡ node_line node.now title.now text.now) }
{
    let head = node_head(alloc, node)?;
    let head = head.as_str();
    let shape = shape_of(node);
    format!(in alloc; "{head}{title}{shape}{text}</g>\n")
}

// rule: Release of an SVG image
#[tactic(auto, unfolding(crate::specs::Svg::node_svg))]
fn node_svg(alloc: Global, app: &App, goals: &[Goal], node: &Node) -> Result<String, AllocError>
    ensures { IfOk result (λ line. string_bytes line ≡ node_svg app.now goals.now node.now) }
{
    let title = node_title(alloc, app, node)?;
    let text = node_element(alloc, app, goals, node)?;
    node_line(alloc, node, title.as_str(), text.as_str())
}

fn push_node(
    alloc: Global,
    text: &mut String,
    app: &App,
    goals: &[Goal],
    node: &Node,
) -> Result<(), AllocError>
    ensures { OnOk result (string_bytes text.new ≡ string_bytes text.old ++ node_svg app.now goals.now node.now) }
{
    let line = node_svg(alloc, app, goals, node)?;
    text.push_str(line.as_str())
}

fn push_nodes(
    alloc: Global,
    text: &mut String,
    app: &App,
    goals: &[Goal],
    nodes: &[Node],
) -> Result<(), AllocError>
    ensures { OnOk result (string_bytes text.new ≡ string_bytes text.old ++ all_nodes_svg app.now goals.now nodes.now) }
{
    for node in nodes {
        push_node(alloc, text, app, goals, node)?;
    }
    Ok(())
}

fn arrow_title(alloc: Global, app: &App, arrow: &Arrow) -> Result<String, AllocError>
    ensures { IfOk result (λ title. string_bytes title ≡ arrow_title app.now arrow.now) }
{
    let tip = arrow_tip(alloc, app, arrow)?;
    tip_title(alloc, tip.as_str())
}

// The first half of a curve, as path data.
fn curve_start(alloc: Global, bow: u128, start: u128) -> Result<String, AllocError>
    ensures { IfOk result (λ half. string_bytes half ≡ curve_start bow start) }
{
    format!(in alloc; "M-13 {start}C-{bow} {start}")
}

// The second half.
fn curve_end(alloc: Global, bow: u128, end: u128) -> Result<String, AllocError>
    ensures { IfOk result (λ half. string_bytes half ≡ curve_end bow end) }
{
    format!(in alloc; "-{bow} {end}-13 {end}")
}

// A curve of a package's colour and width.
fn curve_string(
    alloc: Global,
    arrow: &Arrow,
    first: &str,
    second: &str,
    pen: &str,
) -> Result<String, AllocError>
    ensures { IfOk result (λ curve. string_bytes curve ≡ curve_string arrow.now first.now second.now pen.now) }
{
    let kind = kind_word(arrow);
    format!(in alloc;
        "<path class=\"arrow\" stroke-width=\"{pen}\" d=\"{first}{second}\" marker-end=\"url(#{kind}-head)\"/>"
    )
}

// The curve of a package: it leaves a release below its middle and reaches another above its middle, and the other way
// round for a downgrade.
fn arrow_path(alloc: Global, app: &App, arrow: &Arrow) -> Result<String, AllocError>
    ensures { IfOk result (λ path. string_bytes path ≡ arrow_path app.now arrow.now) }
{
    let first = curve_start(alloc, bow_of(arrow), start_of(arrow))?;
    let second = curve_end(alloc, bow_of(arrow), end_of(arrow))?;
    let pen = pen_string(alloc, bytes_of(app, arrow.payload))?;
    curve_string(alloc, arrow, first.as_str(), second.as_str(), pen.as_str())
}

fn arrow_bytes(alloc: Global, app: &App, arrow: &Arrow) -> Result<String, AllocError>
    ensures { IfOk result (λ text. string_bytes text ≡ arrow_bytes app.now arrow.now) }
{
    let side = bytes_end(arrow);
    let row = bytes_row(arrow);
    let bytes = bytes_of(app, arrow.payload);
    format!(in alloc; "<text class=\"bytes\" x=\"-{side}\" y=\"{row}\">{bytes} B</text>")
}

// The line of a package with its parts.
fn arrow_line(
    alloc: Global,
    arrow: &Arrow,
    title: &str,
    path: &str,
    bytes: &str,
) -> Result<String, AllocError>
    ensures { IfOk result (λ line. string_bytes line ≡ arrow_line arrow.now title.now path.now bytes.now) }
{
    let kind = kind_word(arrow);
    format!(in alloc; "<g class=\"{kind}\">{title}{path}{bytes}</g>\n")
}

// rule: Package of an SVG image
#[tactic(auto, unfolding(crate::specs::Svg::arrow_svg))]
fn arrow_svg(alloc: Global, app: &App, arrow: &Arrow) -> Result<String, AllocError>
    ensures { IfOk result (λ line. string_bytes line ≡ arrow_svg app.now arrow.now) }
{
    let title = arrow_title(alloc, app, arrow)?;
    let path = arrow_path(alloc, app, arrow)?;
    let bytes = arrow_bytes(alloc, app, arrow)?;
    arrow_line(alloc, arrow, title.as_str(), path.as_str(), bytes.as_str())
}

fn push_arrow(alloc: Global, text: &mut String, app: &App, arrow: &Arrow) -> Result<(), AllocError>
    ensures { OnOk result (string_bytes text.new ≡ string_bytes text.old ++ arrow_svg app.now arrow.now) }
{
    let line = arrow_svg(alloc, app, arrow)?;
    text.push_str(line.as_str())
}

fn push_arrows(
    alloc: Global,
    text: &mut String,
    app: &App,
    arrows: &[Arrow],
) -> Result<(), AllocError>
    ensures { OnOk result (string_bytes text.new ≡ string_bytes text.old ++ all_arrows_svg app.now arrows.now) }
{
    for arrow in arrows {
        push_arrow(alloc, text, app, arrow)?;
    }
    Ok(())
}

// rule: SVG image of an app
/// Writes a picture as an SVG image, without script and without other files.
///
/// The releases are in a column, the lowest first, and the packages are arrows to the left of it. Each string of the
/// profile is escaped. Its colours fit a light and a dark page. Out of memory is the only error.
pub fn write_svg(alloc: Global, app: &App, picture: &Picture) -> Result<String, AllocError>
    ensures { IfOk result (λ text. string_bytes text ≡ svg_string app.now picture.now) }
{
    let mut text = frame_string(alloc, app, picture)?;
    push_arrows(alloc, &mut text, app, picture.arrows.as_slice())?;
    push_nodes(
        alloc,
        &mut text,
        app,
        picture.goals.as_slice(),
        picture.nodes.as_slice(),
    )?;
    text.push_str("</g>\n</svg>\n")?;
    Ok(text)
}
