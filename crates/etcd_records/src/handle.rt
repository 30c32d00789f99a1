// The records of a history in etcd, and what is known of them.

ghost use Rattle.std.specs.Prelude.{◌≡◌, ◌+◌, ◌<◌, ◌++◌, ◌∷◌, [], ℕ, MatchOption};
ghost use Rattle.etcd_records.specs.Handles.{known_in};
ghost use Rattle.kept_records.specs.Keeping.{record_of};

use crate::gateway::Gateway;
use crate::headers::Header;
use kept_records::Kind;
use std::marker::Model;
use streams::Trace;
use values::Text;

/// A record, of which contracts alone see the bytes.
#[derive(Drop)]
pub(crate) struct Mark {
    kind: Kind,
    bytes: Trace<u8>,
}

impl Model for Mark {
    ghost use Rattle.kept_records.specs.declared.record.Record.{Record};
    ghost use Rattle.kept_records.specs.contracts.record.Record as kept_record;

    ghost Value = { Record };

    ghost coded = { kept_record.the_row.coded };

    ghost view = { λ mark. record { kind = mark.kind; bytes = mark.bytes } };
}

impl Mark {
    /// Notes a record.
    pub(crate) fn of(kind: Kind, bytes: &[u8]) -> Mark
        ensures { result ≡ record_of kind bytes.now }
    {
        Mark {
            kind,
            bytes: Trace::of(bytes),
        }
    }
}

/// The last known record.
pub(crate) struct Last {
    /// The record.
    pub(crate) mark: Mark,
    /// Whether it was read.
    pub(crate) was_read: bool,
    /// What was left of the limit before it.
    pub(crate) left: Option<u64>,
}

// Written out, so that no caller proves again how each part is dropped.
impl Drop for Last {
    fn drop(self) {
        let Last {
            mark: _,
            was_read: _,
            left: _,
        } = self;
    }
}

/// Notes that a record, if there is one, is no longer the last one.
pub(crate) fn pass(marks: &mut Trace<Mark>, last: Option<Last>)
    ensures { marks.new ≡ known_in marks.old last }
{
    if let Some(last) = last {
        marks.push(&last.mark);
    }
}

/// Returns what is left of the limit after a record of so many bytes, or `None` if the records have more.
pub(crate) fn less(left: Option<u64>, bytes: usize) -> Option<u64>
    ensures { (limit known : ℕ) → MatchOption left (limit < known) (λ rest. rest + known ≡ limit)
        → MatchOption result (limit < known + bytes) (λ rest. rest + (known + bytes) ≡ limit) }
{
    left?.checked_sub(bytes as u64)
}

/// Records in etcd, numbered from 1, which other servers read and append too.
///
/// Contracts see the gateway to etcd's servers, how often a request is posted until one replies, the prefix of the
/// keys, the records that are known to be stored, how many bytes all may have, and the header of the last reply that
/// counts. It keeps no records, only their number and how many bytes are left.
pub struct EtcdRecords<G: Gateway> {
    pub(crate) gateway: G,
    pub(crate) attempts: u32,
    pub(crate) prefix: Text,
    pub(crate) count: usize,
    pub(crate) left: Option<u64>,
    pub(crate) limit: u64,
    // the known records before the last one
    pub(crate) marks: Trace<Mark>,
    pub(crate) last: Option<Last>,
    // the header of the last reply that counts
    pub(crate) seen: Option<Header>,
}

// Written out, so that no caller proves again how each part is dropped.
impl<G: Gateway + Drop> Drop for EtcdRecords<G> {
    fn drop(self) {
        let EtcdRecords {
            gateway: _,
            attempts: _,
            prefix: _,
            count: _,
            left: _,
            limit: _,
            marks: _,
            last: _,
            seen: _,
        } = self;
    }
}

impl<G: Gateway> Model for EtcdRecords<G> {
    ghost use Rattle.etcd_records.specs.Handles.{Handle, IsHandle, handle_code, is_read, known_in};

    ghost Value = { Handle G };

    ghost coded = { handle_code G.code };

    ghost view = { λ h. record {
      gateway = h.gateway;
      attempts = h.attempts;
      prefix = h.prefix;
      kept = known_in h.marks h.last;
      limit = h.limit;
      read = is_read h.last;
      seen = h.seen;
    } };

    ghost invariant = { λ h. IsHandle (G.exchanges h.gateway) h.prefix h.count h.left h.limit h.marks h.last };
}
