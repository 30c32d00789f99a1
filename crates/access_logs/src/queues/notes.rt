// What is written of lines that were lost.

ghost use Rattle.std.specs.Prelude.{◌≡◌, ◌+◌, ◌++◌, ◌<◌, ◌≤◌, IfOk, length};
ghost use Rattle.arrayvec.specs.ArrayVec.{array_vec_len};
ghost use Rattle.access_logs.specs.Queues.{note_of, note_string};

use arrayvec::ArrayVec;
use itoa::Buffer;
use std::alloc::{AllocError, Global};

/// The most bytes of a note: its words, 20 digits and a line feed.
pub(crate) const MAX_NOTE: usize = 61;

// Appends bytes for which there is room.
fn put(note: &mut ArrayVec<u8, MAX_NOTE>, bytes: &[u8])
    requires { array_vec_len note.old + length bytes.now ≤ 61 }
    ensures items { note.new.items ≡ note.old.items ++ bytes.now }
    ensures len { array_vec_len note.new ≡ array_vec_len note.old + length bytes.now }
{
    match note.try_extend_from_slice(bytes) {
        Ok(()) => {}
        Err(_) => unreachable!(),
    }
}

/// Returns the line that says how many lines were lost.
pub(crate) fn lost_note(lost: u64) -> ArrayVec<u8, MAX_NOTE>
    ensures line { result.items ≡ note_string lost }
    ensures short { length result.items ≤ 61 }
{
    let mut digits = Buffer::new();
    let mut note = ArrayVec::new();
    put(&mut note, b"omaha: lines of the log that were lost: ");
    put(&mut note, digits.format(lost).as_bytes());
    put(&mut note, b"\n");
    note
}

// rule: Note of lost lines
/// A line after the note of those that were lost before it.
pub(crate) fn after_note(alloc: Global, lost: u64, line: &[u8]) -> Result<Vec<u8>, AllocError>
    requires { 0 < lost }
    ensures { IfOk result (λ bytes. bytes.items ≡ note_of lost ++ line.now) }
{
    let note = lost_note(lost);
    let mut bytes = Vec::from_slice(alloc, note.as_slice())?;
    bytes.extend_from_slice(line)?;
    Ok(bytes)
}
