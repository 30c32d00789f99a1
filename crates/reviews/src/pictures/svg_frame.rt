//! What is around the releases and packages of an SVG image.

ghost use Rattle.std.specs.Prelude.{◌≡◌, ◌^◌, ◌<◌, IfOk, string_bytes};
ghost use Rattle.reviews.specs.Svg.{frame_of, frame_string, has_downgrade, head_string, heads_string, height_of, left_of, legend_string, longer_jump, longer_label, longest_jump, longest_label, style_string, title_string, width_of};

use crate::markup::escaped;
use crate::pictures::arrows::Arrow;
use crate::pictures::labels::label_string;
use crate::pictures::nodes::{Goal, Node};
use crate::pictures::picture::Picture;
use crate::pictures::spans::{is_downgrade, span_of};
use catalogue::App;
use std::alloc::{AllocError, Global};

const STYLE: &str = "<style>
text{fill:#1f2328;font:14px system-ui,sans-serif}
.back{fill:#fff}.name{font-size:20px;font-weight:600}
.release text{font-weight:600}.release tspan{fill:#1a7f37}
.mark{fill:#eaeef2;stroke:#57606a;stroke-width:2}
.goal .mark{fill:#aceebb;stroke:#1a7f37}
.withdrawn .mark{fill:#fff;stroke-dasharray:3 2}
.stuck .mark{stroke:#cf222e}
.legend text{font-weight:400}
.arrow{fill:none}
.bytes{font-size:11px;fill:#57606a;text-anchor:end;paint-order:stroke;stroke:#fff;stroke-width:4px}
.diff .arrow{stroke:#0969da}.full .arrow{stroke:#8250df}.down .arrow{stroke:#bc4c00;stroke-dasharray:6 3}
.diff-tip{fill:#0969da}.full-tip{fill:#8250df}.down-tip{fill:#bc4c00}
@media(prefers-color-scheme:dark){
text{fill:#e6edf3}
.back,.withdrawn .mark{fill:#0d1117}
.release tspan{fill:#3fb950}
.mark{fill:#30363d;stroke:#8b949e}
.goal .mark{fill:#1f6f3a;stroke:#3fb950}
.stuck .mark{stroke:#ff7b72}
.bytes{fill:#9198a1;stroke:#0d1117}
.diff .arrow{stroke:#58a6ff}.full .arrow{stroke:#bc8cff}.down .arrow{stroke:#f0883e}
.diff-tip{fill:#58a6ff}.full-tip{fill:#bc8cff}.down-tip{fill:#f0883e}
}
</style>
";

const HEADS: &str = "<defs>
<marker id=\"diff-head\" viewBox=\"0 0 8 8\" refX=\"7\" refY=\"4\" markerWidth=\"9\" markerHeight=\"9\" markerUnits=\"userSpaceOnUse\" orient=\"auto\"><path class=\"diff-tip\" d=\"M0 0 8 4 0 8Z\"/></marker>
<marker id=\"full-head\" viewBox=\"0 0 8 8\" refX=\"7\" refY=\"4\" markerWidth=\"9\" markerHeight=\"9\" markerUnits=\"userSpaceOnUse\" orient=\"auto\"><path class=\"full-tip\" d=\"M0 0 8 4 0 8Z\"/></marker>
<marker id=\"down-head\" viewBox=\"0 0 8 8\" refX=\"7\" refY=\"4\" markerWidth=\"9\" markerHeight=\"9\" markerUnits=\"userSpaceOnUse\" orient=\"auto\"><path class=\"down-tip\" d=\"M0 0 8 4 0 8Z\"/></marker>
</defs>
";

const LEGEND: &str = "<g class=\"legend\" transform=\"translate(32 62)\">
<g class=\"release\"><circle class=\"mark\" r=\"7\"/><text x=\"13\" y=\"5\">release</text></g>
<g class=\"release stone\" transform=\"translate(92 0)\"><path class=\"mark\" d=\"M0-9 9 0 0 9-9 0Z\"/><text x=\"13\" y=\"5\">stepping stone</text></g>
<g class=\"release withdrawn\" transform=\"translate(230 0)\"><circle class=\"mark\" r=\"7\"/><text x=\"13\" y=\"5\">withdrawn</text></g>
<g class=\"release goal\" transform=\"translate(338 0)\"><circle class=\"mark\" r=\"7\"/><text x=\"13\" y=\"5\">target<tspan dx=\"4\"> [cohort]</tspan></text></g>
<g class=\"release stuck\" transform=\"translate(484 0)\"><circle class=\"mark\" r=\"7\"/><text x=\"13\" y=\"5\">stuck clients</text></g>
<g class=\"diff\" transform=\"translate(0 26)\"><path class=\"arrow\" stroke-width=\"2\" d=\"M-8 0H22\" marker-end=\"url(#diff-head)\"/><text x=\"30\" y=\"5\">differential</text></g>
<g class=\"full\" transform=\"translate(128 26)\"><path class=\"arrow\" stroke-width=\"2\" d=\"M-8 0H22\" marker-end=\"url(#full-head)\"/><text x=\"30\" y=\"5\">full package</text></g>
<g class=\"down\" transform=\"translate(262 26)\"><path class=\"arrow\" stroke-width=\"2\" d=\"M-8 0H22\" marker-end=\"url(#down-head)\"/><text x=\"30\" y=\"5\">downgrade</text></g>
<text x=\"380\" y=\"31\">wider: more bytes</text>
</g>
";

#[tactic(auto, unfolding(crate::specs::Svg::style_string))]
fn style() -> &'static str
    ensures { result.now ≡ style_string }
{
    STYLE
}

#[tactic(auto, unfolding(crate::specs::Svg::heads_string))]
fn heads() -> &'static str
    ensures { result.now ≡ heads_string }
{
    HEADS
}

#[tactic(auto, unfolding(crate::specs::Svg::legend_string))]
fn legend() -> &'static str
    ensures { result.now ≡ legend_string }
{
    LEGEND
}

// The longest of a label and the others.
fn longer_label(
    alloc: Global,
    app: &App,
    goals: &[Goal],
    longest: usize,
    node: &Node,
) -> Result<usize, AllocError>
    ensures { IfOk result (λ longer. longer ≡ longer_label app.now goals.now longest node.now) }
{
    let label = label_string(alloc, app, node.release, goals)?;
    Ok(longest.max(label.len()))
}

// How many bytes the longest label has.
fn longest_label(
    alloc: Global,
    app: &App,
    goals: &[Goal],
    nodes: &[Node],
) -> Result<usize, AllocError>
    ensures { IfOk result (λ longest. longest ≡ longest_label app.now goals.now nodes.now) }
{
    let mut longest = 0;
    for node in nodes {
        longest = longer_label(alloc, app, goals, longest, node)?;
    }
    Ok(longest)
}

// The larger one of a package's jump and of the others.
fn longer_jump(longest: usize, arrow: &Arrow) -> usize
    ensures { result ≡ longer_jump longest arrow.now }
{
    longest.max(span_of(arrow))
}

// How many releases a package leads up or down at most.
fn longest_jump(arrows: &[Arrow]) -> usize
    ensures { result ≡ longest_jump arrows.now }
{
    let mut longest = 0;
    for arrow in arrows {
        longest = longer_jump(longest, arrow);
    }
    longest
}

// Whether a package leads down.
fn has_downgrade(arrows: &[Arrow]) -> bool
    ensures { result ≡ has_downgrade arrows.now }
{
    arrows.iter().any(is_downgrade)
}

// How far the releases are from the left.
fn left_of(jump: usize, down: bool) -> u128
    ensures { result ≡ left_of jump down }
{
    let outer = if down { 90 } else { 0 };
    150 + 9 * (jump as u128) + outer
}

fn width_of(left: u128, longest: usize, name: usize) -> u128
    requires { left < 2 ^ 80 }
    ensures { result ≡ width_of left longest name }
{
    let labels = left + 60 + 9 * (longest as u128);
    let title = 48 + 13 * (name as u128);
    labels.max(title).max(640)
}

fn height_of(nodes: usize) -> u128
    ensures { result ≡ height_of nodes }
{
    120 + 44 * (nodes as u128)
}

// The first lines of an image, with the app's identifier as it is written there.
fn head_string(alloc: Global, width: u128, height: u128, name: &str) -> Result<String, AllocError>
    ensures { IfOk result (λ head. string_bytes head ≡ head_string width height name.now) }
{
    format!(in alloc;
        "<svg xmlns=\"http://www.w3.org/2000/svg\" viewBox=\"0 0 {width} {height}\" width=\"{width}\" height=\"{height}\" role=\"img\">\n<title>{name}</title>\n"
    )
}

// The lines of the app's identifier and of what the colours and shapes mean.
fn title_string(alloc: Global, left: u128, name: &str) -> Result<String, AllocError>
    ensures { IfOk result (λ title. string_bytes title ≡ title_string left name.now) }
{
    let style = style();
    let heads = heads();
    let legend = legend();
    format!(in alloc;
        "{style}{heads}<rect class=\"back\" width=\"100%\" height=\"100%\"/>\n<text class=\"name\" x=\"24\" y=\"34\">{name}</text>\n{legend}<g transform=\"translate({left} 0)\">\n"
    )
}

// What is before the packages and releases, by its measures.
fn frame_of(
    alloc: Global,
    left: u128,
    width: u128,
    height: u128,
    name: &str,
) -> Result<String, AllocError>
    ensures { IfOk result (λ frame. string_bytes frame ≡ frame_of left width height name.now) }
{
    let head = head_string(alloc, width, height, name)?;
    let title = title_string(alloc, left, name)?;
    let (head, title) = (head.as_str(), title.as_str());
    format!(in alloc; "{head}{title}")
}

// rule: Frame of an SVG image
/// What is before the packages and releases of an SVG image, and makes it wide and high enough for them.
#[tactic(auto, unfolding(crate::specs::Svg::frame_string))]
pub(crate) fn frame_string(
    alloc: Global,
    app: &App,
    picture: &Picture,
) -> Result<String, AllocError>
    ensures { IfOk result (λ frame. string_bytes frame ≡ frame_string app.now picture.now) }
{
    let nodes = picture.nodes.as_slice();
    let longest = longest_label(alloc, app, picture.goals.as_slice(), nodes)?;
    let name = escaped(alloc, app.id.as_str())?;
    let arrows = picture.arrows.as_slice();
    let left = left_of(longest_jump(arrows), has_downgrade(arrows));
    let width = width_of(left, longest, app.id.as_str().len());
    frame_of(alloc, left, width, height_of(nodes.len()), name.as_str())
}
