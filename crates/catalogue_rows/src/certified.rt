// Tables of prices in parts: their least sums, rows that are wrong alone and pairs that are, and other tracks' certificates.

ghost use Rattle.std.specs.Prelude.{◌≡◌, IfSome, Some, length};
ghost use Rattle.payload_graph.specs.Net.{net_among};
ghost use Rattle.cohorts.specs.declared.pin.Pin.TheVariants as pin;

use crate::graphs::{graph_of, key_of};
use catalogue::Catalogue;
use certificates::{Fault, read_prices};
use cohorts::{Lane, Pin};
use fixtures::{CHAINED, catalogue_of_profile, keep};
use par_tables::tables;
use payload_graph::Graph;
use price_cert::{Certified, Prices, Rule, check_pair, check_row};
use std::alloc::Global;
use values::ReadError;

// The least sums of the releases, by track: `stable` and its held clients, `beta` without and with downgrades.
const SUMS: [[Option<u64>; 4]; 4] = [
    [Some(750), Some(450), Some(250), Some(0)],
    [Some(500), Some(200), Some(0), None],
    [Some(500), Some(200), Some(0), None],
    [Some(500), Some(200), Some(0), Some(1400)],
];

// Whether a table has these sums.
fn has_sums(table: &Certified, sums: [Option<u64>; 4]) -> bool {
    for release in 0..table.rows().len() {
        if Some(table.least_sum(release)) != sums.get(release).copied() {
            return false;
        }
    }
    table.rows().len() == 4
}

// Whether the tables of the catalogue have them.
fn are_summed(alloc: Global) -> Option<bool> {
    let catalogue = catalogue_of_profile(alloc, CHAINED)?;
    let made = keep(alloc, tables(alloc, catalogue).ok()?)?;
    for (table, sums) in made.as_slice().iter().zip(SUMS) {
        if !has_sums(table, sums) {
            return Some(false);
        }
    }
    Some(made.as_slice().len() == 4)
}

// rule: Least sum
#[test]
fn tables_have_least_sums(rt: HostRuntime) {
    assert!(rt; are_summed(rt.alloc()) == Some(true));
}

// The number of the line that makes bytes no certificate of a graph's table: 0 if there is none.
fn wrong_line(alloc: Global, catalogue: &Catalogue, graph: &Graph, bytes: &[u8]) -> Option<usize>
    requires graph { net_among catalogue.now graph.now.key ≡ Some graph.now }
    requires pin { graph.now.key.pin ≡ pin.Any }
{
    let read = read_prices(alloc, catalogue, graph, bytes);
    match &read {
        Err(ReadError::Fault(Fault::NotOfThisGraph { n })) => Some(*n),
        Ok(_) => Some(0),
        Err(_) => None,
    }
}

// The headings of certificates of three tracks, and the line that isn't of the table of the first.
const HEADINGS: [(&str, usize); 3] = [
    (
        "prices 1\napp demo\ncohort beta\nlane target\nrollback yes\n",
        3,
    ),
    (
        "prices 1\napp demo\ncohort stable\nlane held\nrollback no\n",
        4,
    ),
    (
        "prices 1\napp demo\ncohort stable\nlane target\nrollback yes\n",
        5,
    ),
];

// Whether the headings of each certificate are wrong at that line of the graph's own.
fn are_of_others(alloc: Global, catalogue: &Catalogue, graph: &Graph) -> bool
    requires graph { net_among catalogue.now graph.now.key ≡ Some graph.now }
    requires pin { graph.now.key.pin ≡ pin.Any }
{
    for (headings, line) in HEADINGS {
        if wrong_line(alloc, catalogue, graph, headings.as_bytes()) != Some(line) {
            return false;
        }
    }
    true
}

// The certificate of `stable` before the row of 2.0, and after it.
const BEFORE: &str =
    "prices 1\napp demo\ncohort stable\nlane target\nrollback no\ntarget 4.0 4444444444444444444444444444444444444444444444444444444444444444\nrows 4\n1.0 750 diff 2.0\n";

const AFTER: &str = "\n3.0 250 diff 4.0\n4.0 0 end\n";

// The table of the certificate with a row of 2.0.
fn table_with(
    alloc: Global,
    catalogue: &Catalogue,
    graph: &Graph,
    row: &str,
) -> Option<&'static Prices>
    requires graph { net_among catalogue.now graph.now.key ≡ Some graph.now }
    requires pin { graph.now.key.pin ≡ pin.Any }
    ensures { IfSome result (λ prices. length prices.now.rows ≡ length graph.now.doors) }
{
    let text = format!(in alloc; "{BEFORE}{row}{AFTER}").ok()?;
    match read_prices(alloc, catalogue, graph, text.as_str().as_bytes()) {
        Ok(prices) => keep(alloc, prices),
        Err(_) => None,
    }
}

// A row of 2.0, the rule that it breaks alone, and for each release whether its price is within the payloads that lead there.
const ROWS: [(&str, Option<Rule>, [bool; 4]); 5] = [
    ("2.0 450 diff 3.0", None, [true, true, true, true]),
    ("2.0 449 diff 3.0", Some(Rule::C3), [true, true, true, true]),
    (
        "2.0 451 diff 3.0",
        Some(Rule::C3),
        [true, true, false, true],
    ),
    ("2.0 none", None, [true, true, false, false]),
    ("2.0 0 end", Some(Rule::C1), [true, true, true, true]),
];

// Whether the row of 2.0 of a table is so.
fn is_found(graph: &Graph, prices: &Prices, broken: Option<Rule>, bounded: [bool; 4]) -> bool
    requires { length prices.now.rows ≡ length graph.now.doors }
{
    if graph.doors().len() != 4 {
        return false;
    }
    for (to, is_bounded) in bounded.iter().enumerate() {
        if check_pair(graph, prices, 1, to) != *is_bounded {
            return false;
        }
    }
    check_row(graph, prices, 1) == broken
}

// Whether each of the rows is so.
fn are_found(alloc: Global, catalogue: &Catalogue, graph: &Graph) -> Option<bool>
    requires graph { net_among catalogue.now graph.now.key ≡ Some graph.now }
    requires pin { graph.now.key.pin ≡ pin.Any }
{
    for (row, broken, bounded) in ROWS {
        let prices = table_with(alloc, catalogue, graph, row)?;
        if !is_found(graph, prices, broken, bounded) {
            return Some(false);
        }
    }
    Some(true)
}

// Whether both are so for the graph of `stable`.
fn are_checked(alloc: Global) -> Option<bool> {
    let catalogue = catalogue_of_profile(alloc, CHAINED)?;
    let graph = graph_of(alloc, catalogue, &key_of(0, Lane::Target, false))?;
    match graph.key().pin {
        Pin::Any => {
            let are_others = are_of_others(alloc, catalogue, graph);
            Some(are_others && are_found(alloc, catalogue, graph)?)
        }
        _ => None,
    }
}

// rule: Bounded pair
// rule: Broken rule of a row alone
// rule: Flaw of a heading
#[test]
fn certificates_are_checked_by_parts(rt: HostRuntime) {
    assert!(rt; are_checked(rt.alloc()) == Some(true));
}
