// Why an edition isn't made.

use editions::NextError;
use std::alloc::Global;

fn is_printed(alloc: Global, error: &NextError, wanted: &str) -> Option<bool> {
    let line = format!(in alloc; "{error}").ok()?;
    Some(line.as_str() == wanted)
}

// rule: Printed error of a batch
#[test]
fn prints_why_a_batch_is_rejected(rt: HostRuntime) {
    assert!(rt; is_printed(rt.alloc(), &NextError::HistoryFull, "history full") == Some(true));
}
