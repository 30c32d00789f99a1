//! The check of a table in parts, which may be tested in any order.

ghost use Rattle.std.specs.Prelude.{◌≡◌, ◌<◌, length};
ghost use Rattle.price_cert.specs.Rows.{row_at};
ghost use Rattle.price_cert.specs.Rules.{broken_alone, meets_bounds_to};

use crate::row::{Prices, row_at};
use crate::rules::{Rule, broken_alone, meets_bounds_to};
use payload_graph::Graph;

// rule: Bounded pair
/// Whether a row keeps C2 for each payload that leads to a release, both given by index.
///
/// The table has a row for each release of the graph, and `row` is in range. A row keeps C2 if it does so for each
/// release. It takes no memory, and a step for each payload from the row's release.
pub fn check_pair(graph: &Graph, prices: &Prices, row: usize, to: usize) -> bool
    requires sized { length prices.now.rows ≡ length graph.now.doors }
    requires row { row < length graph.now.doors }
    ensures { result ≡ meets_bounds_to graph.now prices.now.rows row (row_at prices.now.rows row) to }
{
    let rows = prices.rows.as_slice();
    meets_bounds_to(graph, rows, row, row_at(rows, row), to)
}

// rule: Broken rule of a row alone
/// Returns the first of C1, C3 and C4 that a row breaks, `None` if it breaks none of them.
///
/// The table has a row for each release of the graph, and `row` is in range. It takes no memory.
pub fn check_row(graph: &Graph, prices: &Prices, row: usize) -> Option<Rule>
    requires sized { length prices.now.rows ≡ length graph.now.doors }
    requires row { row < length graph.now.doors }
    ensures { result ≡ broken_alone graph.now prices.now.rows row (row_at prices.now.rows row) }
{
    let rows = prices.rows.as_slice();
    broken_alone(graph, rows, row, row_at(rows, row))
}
