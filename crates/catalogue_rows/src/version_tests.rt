// Versions in order.

use catalogue::Version;

// Two spellings of one version, or two versions, the lower first.
const ORDERED: &str = "1.0 = 1.0.0.0
1 = 1.0
0 = 0.0.0.0
01.02 = 1.2
1.9 < 1.10
1.9.9 < 2
1.0 < 1.0.0.1
0 < 0.0.0.0.0.0.0.0.0.0.0.0.0.0.0.1
4294967294.9 < 4294967295";

fn is_equal(left: &Version, right: &Version) -> bool {
    left.is_equal(right) && !left.is_below(right) && !right.is_below(left)
}

fn is_lower(lower: &Version, upper: &Version) -> bool {
    lower.is_below(upper) && *lower < *upper && !upper.is_below(lower) && !lower.is_equal(upper)
}

fn is_ordered(row: &str) -> bool {
    match row.split_once(" < ") {
        Some((lower, upper)) => is_lower(&Version::lenient(lower), &Version::lenient(upper)),
        None => {
            let (left, right) = row.split_once(" = ").unwrap_or((row, ""));
            is_equal(&Version::lenient(left), &Version::lenient(right))
        }
    }
}

// rule: Order of versions
#[test]
fn first_component_that_differs_decides(rt: HostRuntime) {
    for row in ORDERED.lines() {
        assert!(rt; is_ordered(row), "{row}");
    }
}
