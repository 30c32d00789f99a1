// The headers of etcd's replies.

ghost use Rattle.std.specs.Prelude.{◌≡◌};
ghost use Rattle.serde_json.specs.View.{view};
ghost use Rattle.etcd_records.specs.Headers.{has_plus, header_of, number_at, number_of, trouble_in, trouble_of};

use kept_records::Unreached;
use serde_json::Value;

/// Whose reply it is: the number of the cluster, and the revision of its state.
#[derive(Clone, Copy, Drop)]
pub(crate) struct Header {
    /// The number of the cluster.
    pub(crate) cluster: u64,
    /// The revision of the state that the reply is of.
    pub(crate) revision: u64,
}

fn has_plus(text: &str) -> bool
    ensures { result ≡ has_plus text.now }
{
    !text.is_empty() && text.as_bytes()[0] == b'+'
}

// The number that a string has in decimal digits; std's `parse` alone would accept a `+`.
fn number_of(text: &str) -> Option<u64>
    ensures { result ≡ number_of text.now }
{
    if has_plus(text) {
        return None;
    }
    text.parse::<u64>().ok()
}

// The number in the string at a place of a reply.
fn number_at(reply: &Value, place: &str) -> Option<u64>
    ensures { result ≡ number_at place.now (view reply.now) }
{
    number_of(reply.pointer(place)?.as_str()?)
}

/// Returns the header of a reply, or `None` if it has none.
pub(crate) fn header_of(reply: &Value) -> Option<Header>
    ensures { result ≡ header_of (view reply.now) }
{
    let cluster = number_at(reply, "/header/cluster_id")?;
    let revision = number_at(reply, "/header/revision")?;
    Some(Header { cluster, revision })
}

// rule: Replies of one cluster
// Why a reply with a header doesn't count after one with another header.
fn trouble_of(seen: Option<Header>, header: Header) -> Option<Unreached>
    ensures { result ≡ trouble_of seen header }
{
    match seen {
        Some(seen) if seen.cluster != header.cluster => Some(Unreached::OtherCluster),
        Some(seen) if header.revision < seen.revision => Some(Unreached::OlderState),
        _ => None,
    }
}

/// Returns why a reply doesn't count after one with such a header, or `None` if it does.
pub(crate) fn trouble_in(seen: Option<Header>, reply: &Value) -> Option<Unreached>
    ensures { result ≡ trouble_in seen (view reply.now) }
{
    trouble_of(seen, header_of(reply)?)
}
