// The known records, as contracts see them.

ghost use Rattle.std.specs.Prelude.{◌≡◌, ◌++◌, ◌∷◌, [], IfSome};
ghost use Rattle.kept_records.specs.Keeping.{bytes_in, record_of};

use kept_records::{Kind, Record};
use std::marker::Model;
use streams::Trace;

/// A record, of which contracts alone see the bytes.
#[derive(Drop)]
pub(crate) struct Mark {
    kind: Kind,
    bytes: Trace<u8>,
}

impl Model for Mark {
    ghost use Rattle.kept_records.specs.declared.record.Record.{Record};
    ghost use Rattle.kept_records.specs.contracts.record.Record as kept_record;

    ghost Value = { Record };

    ghost coded = { kept_record.the_row.coded };

    ghost view = { λ mark. record { kind = mark.kind; bytes = mark.bytes } };
}

/// Notes one more record.
pub(crate) fn note(marks: &mut Trace<Mark>, kind: Kind, bytes: &[u8])
    ensures { marks.new ≡ marks.old ++ record_of kind bytes.now ∷ [] }
{
    let mark = Mark {
        kind,
        bytes: Trace::of(bytes),
    };
    marks.push(&mark);
}

/// Returns the marks of these records.
pub(crate) fn marks_of(kept: &[Record]) -> Trace<Mark>
    ensures { result ≡ kept.now }
{
    let mut marks = Trace::new();
    for it in kept {
        note(&mut marks, it.kind, it.bytes.as_slice());
    }
    marks
}

/// Returns how many bytes the records have together, or `None` for more than 2^64.
pub(crate) fn size_of(kept: &[Record]) -> Option<u64>
    ensures { IfSome result (λ size. size ≡ bytes_in kept.now) }
{
    let mut size = 0u64;
    for it in kept {
        size = size.checked_add(it.bytes.len() as u64)?;
    }
    Some(size)
}
