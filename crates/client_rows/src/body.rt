// The bytes of a download.

ghost use Rattle.std.specs.Prelude.{◌≡◌, ◌<◌, ◌≤◌, [], length};

/// A string and how often it comes: `abc` once, `a*9` nine times, `a*` without end.
pub(crate) fn body_and_times(word: &str) -> (&str, u64) {
    match word.split_once('*') {
        Some((text, times)) => (text, times.parse().unwrap_or(u64::MAX)),
        None => (word, 1),
    }
}

/// What is left of a download.
#[derive(Drop)]
pub(crate) struct Body<'a> {
    pub(crate) left: &'a [u8],
    text: &'a [u8],
    copies: u64,
    piece: usize,
}

impl<'a> Body<'a> {
    /// The body of such a word, at most so many bytes a call.
    pub(crate) fn new(word: &'a str, piece: usize) -> Body<'a> {
        let (text, copies) = body_and_times(word);
        Body {
            left: b"",
            text: text.as_bytes(),
            copies,
            piece: piece.max(1),
        }
    }

    /// Gives the next bytes; 0 only at the end.
    pub(crate) fn read(&mut self, into: &mut [u8]) -> usize
        ensures bound { result ≤ length into.new }
        ensures end { 0 < length into.new → result ≡ 0 → self.new.left.now ≡ [] }
    {
        if self.left.is_empty() && self.copies > 0 {
            self.left = self.text;
            self.copies -= 1;
        }
        let count = self.left.len().min(into.len()).min(self.piece.max(1));
        into[..count].copy_from_slice(&self.left[..count]);
        self.left = &self.left[count..];
        count
    }
}
