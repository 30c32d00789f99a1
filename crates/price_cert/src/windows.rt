//! The best payload of each release, from that of its neighbour.
//!
//! The full packages that leave a release go through its window, and the windows of neighbours differ by
//! one door: so whoever goes along the releases, and keeps the best full package of the window, takes a
//! step for each release and each differential. Only at a floor the open doors of a window can change. Down
//! to the target, doors close: if the best one does, the window is gone through. Above the target, doors
//! open: those that do are looked at.

ghost use Rattle.std.specs.Prelude.{◌≡◌, ◌+◌, ◌<◌, ◌≤◌, ◌++◌, List, All, true, length};
ghost use Rattle.payload_graph.specs.Net.{edges_from, fulls, window};
ghost use Rattle.catalogue.specs.Forms.{is_size};
ghost use Rattle.payload_graph.specs.Soundness.{openings};
ghost use Rattle.payload_graph.specs.declared.door.Door.{Door};
ghost use Rattle.payload_graph.specs.declared.edge.Edge.{Edge};
ghost use Rattle.price_cert.specs.Best.{beyond, lower, ArePricesSmall, IsBest};

use crate::best::{Nearest, improved, is_still_open, nearer, nearest_row, taken};
use crate::row::Row;
use payload_graph::{Door, Graph};

// rule: Best payload
/// Names the best payload of a release, by the best full package of its window.
pub fn best_row(graph: &Graph, rows: &[Row], from: usize, best: Row) -> Row
    requires there { from < length graph.now.doors }
    requires small { ArePricesSmall rows.now }
    requires best { IsBest rows.now (fulls from (window graph.now from)) best }
    ensures { IsBest rows.now (edges_from graph.now from) result }
{
    let _bounded = graph.doors();
    let differs = graph.differs_from(from);
    let mut row = best;
    for edge in differs {
        row = improved(rows, row, edge);
    }
    row
}

// The best full package of a release through some doors, by a look at each of them.
fn best_through(rows: &[Row], from: usize, doors: &[Door]) -> Row
    requires small { ArePricesSmall rows.now }
    requires sized { All (λ (door : Door). is_size door.bytes ≡ true) doors.now }
    ensures { IsBest rows.now (fulls from doors.now) result }
{
    let mut nearest = Nearest {
        sum: u64::MAX,
        to: 0,
    };
    for door in doors {
        nearest = nearer(rows, nearest, from, door);
    }
    nearest_row(nearest)
}

// The best full package of a window without its first door, by that of the next release's window. It stays
// the best as long as its door opens from the release; after that the window is gone through.
fn best_beyond(graph: &Graph, rows: &[Row], from: usize, best: Row) -> Row
    requires below { from < graph.now.target }
    requires small { ArePricesSmall rows.now }
    requires best { IsBest rows.now (fulls (from + 1) (window graph.now (from + 1))) best }
    ensures { IsBest rows.now (fulls from (beyond graph.now from)) result }
{
    payload_graph::laws::windows();
    let _within = graph.target();
    let doors = graph.doors();
    if doors[from + 1].stone {
        return Row::Nothing;
    }
    if is_still_open(doors, from, best) {
        return best;
    }
    best_through(rows, from, graph.window(from + 1))
}

/// Names the best full package of a window below the target, by that of the window of the next release.
pub fn best_below(graph: &Graph, rows: &[Row], from: usize, best: Row) -> Row
    requires below { from < graph.now.target }
    requires small { ArePricesSmall rows.now }
    requires best { IsBest rows.now (fulls (from + 1) (window graph.now (from + 1))) best }
    ensures { IsBest rows.now (fulls from (window graph.now from)) result }
{
    payload_graph::laws::windows();
    let _within = graph.target();
    let rest = best_beyond(graph, rows, from, best);
    taken(rows, rest, from, &graph.doors()[from + 1])
}

// The better one of a best payload and the full packages that open at an index.
fn best_opened(graph: &Graph, rows: &[Row], index: usize, best: Row) -> Row
    requires there { index ≤ length graph.now.doors }
    requires small { ArePricesSmall rows.now }
    ensures { (edges : List Edge) → IsBest rows.now edges best → IsBest rows.now (edges ++ openings graph.now.doors index) result }
{
    let _bounded = graph.doors();
    let openings = graph.openings(index);
    let mut row = best;
    for edge in openings {
        row = improved(rows, row, edge);
    }
    row
}

/// Names the best full package to the releases up to one, by that to the releases below it.
///
/// There are such packages only on a track that leads down from above its target. Beside the one that was the best,
/// only the one to the last release and those that open above it are looked at.
pub fn best_above(graph: &Graph, rows: &[Row], from: usize, best: Row) -> Row
    requires there { from < length graph.now.doors }
    requires small { ArePricesSmall rows.now }
    requires best { IsBest rows.now (fulls from (lower graph.now from)) best }
    ensures { IsBest rows.now (fulls (from + 1) (lower graph.now (from + 1))) result }
{
    if !graph.rolls_back() {
        return best;
    }
    let doors = graph.doors();
    let next = taken(rows, best, from + 1, &doors[from]);
    best_opened(graph, rows, from + 1, next)
}

/// Names the best full package to the releases up to the target, for those above it.
pub fn best_to_target(graph: &Graph, rows: &[Row]) -> Row
    requires { ArePricesSmall rows.now }
    ensures { IsBest rows.now (fulls (graph.now.target + 1) (lower graph.now (graph.now.target + 1))) result }
{
    let doors = graph.doors();
    let above = graph.target() + 1;
    if graph.rolls_back() {
        best_through(rows, above, &doors[..above])
    } else {
        Row::Nothing
    }
}
