//! Pictures as graphs of Graphviz.

ghost use Rattle.std.specs.Prelude.{◌≡◌, ◌++◌, IfOk, OnOk, string_bytes};
ghost use Rattle.reviews.specs.Dot.{all_arrows_dot, all_nodes_dot, arrow_color, arrow_dot, arrow_words, dot_string, head_dot, node_dot, node_line_dot, node_lines, node_words, order_dot};

use crate::pictures::arrows::Arrow;
use crate::pictures::dot_escapes::quoted;
use crate::pictures::labels::{arrow_tip, bytes_of, label_string, node_tip, pen_string, word_if};
use crate::pictures::nodes::{Goal, Node};
use crate::pictures::picture::Picture;
use catalogue::App;
use payload_graph::Payload;
use std::alloc::{AllocError, Global};

// The first lines of a graph.
#[tactic(auto, unfolding(crate::specs::Dot::head_dot))]
fn head_dot(alloc: Global, app: &App) -> Result<String, AllocError>
    ensures { IfOk result (λ head. string_bytes head ≡ head_dot app.now) }
{
    let name = quoted(alloc, app.id.as_str())?;
    let name = name.as_str();
    format!(in alloc;
        "digraph releases {{\nlabel=\"{name}\"; labelloc=t; rankdir=LR; fontname=\"sans-serif\";\nnode [fontname=\"sans-serif\", shape=ellipse, style=filled, fillcolor=\"#eaeef2\", color=\"#57606a\"];\nedge [fontname=\"sans-serif\", fontsize=10, constraint=false];\n"
    )
}

// What a release is, as attributes.
fn node_words(alloc: Global, node: &Node) -> Result<String, AllocError>
    ensures { IfOk result (λ words. string_bytes words ≡ node_words node.now) }
{
    let stone = word_if(node.stone, ", shape=diamond");
    let goal = word_if(node.goal, ", fillcolor=\"#aceebb\", color=\"#1a7f37\"");
    let withdrawn = word_if(node.withdrawn, ", style=dashed");
    let stuck = word_if(node.stuck, ", color=\"#cf222e\"");
    format!(in alloc; "{stone}{goal}{withdrawn}{stuck}")
}

// The line of a release with its parts.
fn node_line_dot(alloc: Global, node: &Node, label: &str, tip: &str) -> Result<String, AllocError>
    ensures { IfOk result (λ line. string_bytes line ≡ node_line_dot node.now label.now tip.now) }
{
    let label = quoted(alloc, label)?;
    let tip = quoted(alloc, tip)?;
    let words = node_words(alloc, node)?;
    let (label, tip, words) = (label.as_str(), tip.as_str(), words.as_str());
    let release = node.release;
    format!(in alloc; "r{release} [label=\"{label}\", tooltip=\"{tip}\"{words}];\n")
}

// rule: Release of a graph
#[tactic(auto, unfolding(crate::specs::Dot::node_dot))]
fn node_dot(alloc: Global, app: &App, goals: &[Goal], node: &Node) -> Result<String, AllocError>
    ensures { IfOk result (λ line. string_bytes line ≡ node_dot app.now goals.now node.now) }
{
    let label = label_string(alloc, app, node.release, goals)?;
    let tip = node_tip(alloc, app, node)?;
    node_line_dot(alloc, node, label.as_str(), tip.as_str())
}

// The line that puts a release after the one below it, if there is one.
fn order_dot(alloc: Global, node: &Node) -> Result<String, AllocError>
    ensures { IfOk result (λ line. string_bytes line ≡ order_dot node.now) }
{
    if node.release == 0 {
        return Ok(String::new(alloc));
    }
    let before = node.release - 1;
    let release = node.release;
    format!(in alloc; "r{before} -> r{release} [style=invis, constraint=true];\n")
}

#[tactic(auto, unfolding(crate::specs::Dot::node_lines))]
fn push_node(
    alloc: Global,
    text: &mut String,
    app: &App,
    goals: &[Goal],
    node: &Node,
) -> Result<(), AllocError>
    ensures { OnOk result (string_bytes text.new ≡ string_bytes text.old ++ node_lines app.now goals.now node.now) }
{
    let line = node_dot(alloc, app, goals, node)?;
    text.push_str(line.as_str())?;
    let order = order_dot(alloc, node)?;
    text.push_str(order.as_str())
}

fn push_nodes(
    alloc: Global,
    text: &mut String,
    app: &App,
    goals: &[Goal],
    nodes: &[Node],
) -> Result<(), AllocError>
    ensures { OnOk result (string_bytes text.new ≡ string_bytes text.old ++ all_nodes_dot app.now goals.now nodes.now) }
{
    for node in nodes {
        push_node(alloc, text, app, goals, node)?;
    }
    Ok(())
}

// The colour of an arrow.
fn arrow_color(arrow: &Arrow) -> &'static str
    ensures { result.now ≡ arrow_color arrow.now }
{
    if arrow.to < arrow.from {
        return "#bc4c00";
    }
    match arrow.payload {
        Payload::Full(_) => "#8250df",
        Payload::Differ(_) => "#0969da",
    }
}

// How a package is drawn.
fn arrow_words(alloc: Global, app: &App, arrow: &Arrow) -> Result<String, AllocError>
    ensures { IfOk result (λ words. string_bytes words ≡ arrow_words app.now arrow.now) }
{
    let bytes = bytes_of(app, arrow.payload);
    let pen = pen_string(alloc, bytes)?;
    let pen = pen.as_str();
    let color = arrow_color(arrow);
    let dashed = word_if(arrow.to < arrow.from, ", style=dashed");
    format!(in alloc; "label=\"{bytes} B\", penwidth={pen}, color=\"{color}\"{dashed}")
}

// rule: Package of a graph
#[tactic(auto, unfolding(crate::specs::Dot::arrow_dot))]
fn arrow_dot(alloc: Global, app: &App, arrow: &Arrow) -> Result<String, AllocError>
    ensures { IfOk result (λ line. string_bytes line ≡ arrow_dot app.now arrow.now) }
{
    let tip = arrow_tip(alloc, app, arrow)?;
    let tip = quoted(alloc, tip.as_str())?;
    let words = arrow_words(alloc, app, arrow)?;
    let (tip, words) = (tip.as_str(), words.as_str());
    let from = arrow.from;
    let to = arrow.to;
    format!(in alloc; "r{from} -> r{to} [{words}, tooltip=\"{tip}\"];\n")
}

fn push_arrow(alloc: Global, text: &mut String, app: &App, arrow: &Arrow) -> Result<(), AllocError>
    ensures { OnOk result (string_bytes text.new ≡ string_bytes text.old ++ arrow_dot app.now arrow.now) }
{
    let line = arrow_dot(alloc, app, arrow)?;
    text.push_str(line.as_str())
}

fn push_arrows(
    alloc: Global,
    text: &mut String,
    app: &App,
    arrows: &[Arrow],
) -> Result<(), AllocError>
    ensures { OnOk result (string_bytes text.new ≡ string_bytes text.old ++ all_arrows_dot app.now arrows.now) }
{
    for arrow in arrows {
        push_arrow(alloc, text, app, arrow)?;
    }
    Ok(())
}

// rule: Graph of an app
/// Writes a picture as a graph that Graphviz's `dot` draws.
///
/// The releases are in a row, the lowest first. Each string of the profile is quoted. Out of memory is the only error.
pub fn write_dot(alloc: Global, app: &App, picture: &Picture) -> Result<String, AllocError>
    ensures { IfOk result (λ text. string_bytes text ≡ dot_string app.now picture.now) }
{
    let mut text = head_dot(alloc, app)?;
    push_nodes(
        alloc,
        &mut text,
        app,
        picture.goals.as_slice(),
        picture.nodes.as_slice(),
    )?;
    push_arrows(alloc, &mut text, app, picture.arrows.as_slice())?;
    text.push_str("}\n")?;
    Ok(text)
}
