// The requests that are posted.

ghost use Rattle.std.specs.Prelude.{◌≡◌, IfOk, string_bytes};
ghost use Rattle.etcd_records.specs.Requests.{range_request, txn_request};

use std::alloc::{AllocError, Global};

/// The path of transactions.
pub(crate) const TXN_PATH: &str = "/v3/kv/txn";

/// The path of reads.
pub(crate) const RANGE_PATH: &str = "/v3/kv/range";

// rule: Requests to etcd
/// Returns the transaction that puts a value at a key if there is none, and reads the key otherwise.
#[tactic(auto, unfolding(crate::specs::Requests::txn_request))]
pub(crate) fn txn_request(alloc: Global, key: &str, value: &str) -> Result<String, AllocError>
    ensures { IfOk result (λ text. string_bytes text ≡ txn_request key.now value.now) }
{
    let mut text = String::new(alloc);
    text.push_str("{\"compare\":[{\"key\":\"")?;
    text.push_str(key)?;
    text.push_str("\",\"target\":\"CREATE\",\"result\":\"EQUAL\",\"create_revision\":\"0\"}],")?;
    text.push_str("\"success\":[{\"request_put\":{\"key\":\"")?;
    text.push_str(key)?;
    text.push_str("\",\"value\":\"")?;
    text.push_str(value)?;
    text.push_str("\"}}],\"failure\":[{\"request_range\":{\"key\":\"")?;
    text.push_str(key)?;
    text.push_str("\"}}]}")?;
    Ok(text)
}

// rule: Requests to etcd
/// Returns the read of a key.
#[tactic(auto, unfolding(crate::specs::Requests::range_request))]
pub(crate) fn range_request(alloc: Global, key: &str) -> Result<String, AllocError>
    ensures { IfOk result (λ text. string_bytes text ≡ range_request key.now) }
{
    let mut text = String::new(alloc);
    text.push_str("{\"key\":\"")?;
    text.push_str(key)?;
    text.push_str("\"}")?;
    Ok(text)
}
