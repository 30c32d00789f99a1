//! The rows of all releases, in one pass.

ghost use Rattle.std.specs.Prelude.{◌≡◌, ◌+◌, ◌<◌, length, replicate};
ghost use Rattle.price_cert.specs.Rules.{AreCertified};
ghost use Rattle.price_cert.specs.declared.row.Row.TheVariants.{Nothing};
ghost use Rattle.solver.specs.Settled.{AreSettled};

use payload_graph::Graph;
use price_cert::{Row, best_above, best_below, best_row, best_to_target};

// The rows below the target, from the target down.
fn fill_below(graph: &Graph, rows: &mut [Row])
    requires { AreSettled graph.now rows.old graph.now.target (graph.now.target + 1) }
    ensures { AreSettled graph.now rows.new 0 (graph.now.target + 1) }
{
    payload_graph::laws::nearer();
    payload_graph::laws::sized();
    payload_graph::laws::windows();
    let _bounded = graph.doors();
    let _nearing = graph.differs();
    let mut best = Row::Nothing;
    for from in (0..graph.target()).rev() {
        best = best_below(graph, rows, from, best);
        rows[from] = best_row(graph, rows, from, best);
    }
}

// The rows above the target, upward.
fn fill_above(graph: &Graph, rows: &mut [Row])
    requires { AreSettled graph.now rows.old 0 (graph.now.target + 1) }
    ensures { AreSettled graph.now rows.new 0 (length graph.now.doors) }
{
    payload_graph::laws::nearer();
    payload_graph::laws::sized();
    let _nearing = graph.differs();
    let mut best = best_to_target(graph, rows);
    for from in graph.target() + 1..graph.doors().len() {
        rows[from] = best_row(graph, rows, from, best);
        best = best_above(graph, rows, from, best);
    }
}

// rule: Settled rows
/// Fills in the rows of a graph.
pub(crate) fn fill(graph: &Graph, rows: &mut [Row])
    requires { rows.old ≡ replicate (length graph.now.doors) Nothing }
    ensures { AreCertified graph.now rows.new }
{
    price_cert::laws::best();
    let _bounded = graph.doors();
    let _nearing = graph.differs();
    rows[graph.target()] = Row::End;
    fill_below(graph, rows);
    fill_above(graph, rows);
}
