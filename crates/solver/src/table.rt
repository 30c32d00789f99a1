//! The certified table of a graph.

ghost use Rattle.std.specs.Prelude.{◌≡◌, IfOk};
ghost use Rattle.price_cert.specs.Laws.{ArePrices};
ghost use Rattle.price_cert.specs.Rules.{AreCertified};

use crate::filling::fill;
use payload_graph::Graph;
use price_cert::{Certified, Prices, Row, check};
use std::alloc::{AllocError, Global};
use values::SharedItems;

fn solved_rows(alloc: Global, graph: &Graph) -> Result<Vec<Row>, AllocError>
    ensures { IfOk result (λ rows. AreCertified graph.now rows.items) }
{
    let mut rows = vec![in alloc; Row::Nothing; graph.doors().len()]?;
    fill(graph, rows.as_mut_slice());
    Ok(rows)
}

// rule: Settled rows
/// Makes the certified table of a graph: the least sum of each release, and its first payload.
///
/// It goes over the releases once, and takes memory for the rows alone.
pub fn solve(alloc: Global, graph: &Graph) -> Result<Certified, AllocError>
    ensures graph { IfOk result (λ certified. certified.net ≡ graph.now) }
    ensures certified { IfOk result (λ certified. AreCertified certified.net certified.rows) }
    ensures least { IfOk result (λ certified. ArePrices certified.net certified.rows) }
{
    let rows = solved_rows(alloc, graph)?;
    let prices = Prices {
        key: graph.key(),
        rows: SharedItems::new(alloc, rows)?,
    };
    match check(graph, prices) {
        Ok(certified) => Ok(certified),
        Err(_) => unreachable!(),
    }
}
