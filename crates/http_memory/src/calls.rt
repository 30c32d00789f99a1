// What one call of a device comes to.

ghost use Rattle.std.specs.Prelude.{◌≡◌};
ghost use Rattle.http_memory.specs.Calls.{fails, after_call, length_of_piece};

// Whether a call fails; `after` is how many more calls succeed before one does.
pub(crate) fn is_failing(after: &mut Option<usize>) -> bool
    ensures fails { result ≡ fails after.old }
    ensures next { after.new ≡ after_call after.old }
{
    match *after {
        None => false,
        Some(0) => {
            *after = None;
            true
        }
        Some(calls) => {
            *after = Some(calls - 1);
            false
        }
    }
}

// rule: Piece of a device in memory
// How many bytes a call moves, of those that there are and those that there is room for.
pub(crate) fn piece_of(piece: usize, there: usize, room: usize) -> usize
    ensures { result ≡ length_of_piece piece there room }
{
    there.min(room).min(piece.max(1))
}
