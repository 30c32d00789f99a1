// The first words of a message.

ghost use Rattle.std.specs.Prelude.{◌≡◌, Some};
ghost use Rattle.kept_records.specs.Messages.{as_printable, words_of};
ghost use Rattle.kept_records.specs.Words.{words_in};

use std::fmt;

/// How many bytes of a message are kept.
pub const MAX_WORDS: usize = 60;

/// The first words of a message of somebody else: at most 60 bytes, each of which prints as a character of ASCII.
#[derive(Clone, Copy, Debug, Drop, PartialEq, Eq)]
pub struct Words {
    bytes: [u8; MAX_WORDS],
    count: usize,
}

// A space in place of a byte that doesn't print.
fn as_printable(byte: u8) -> u8
    ensures { result ≡ as_printable byte }
{
    if (32..=126).contains(&byte) { byte } else { 32 }
}

impl Words {
    // rule: First words of a message
    /// Keeps the first 60 bytes of a message, with a space in place of each that is no printable character of ASCII.
    pub fn of(message: &[u8]) -> Words
        ensures { words_in result ≡ words_of message.now }
    {
        let mut bytes = [0; MAX_WORDS];
        let count = message.len().min(MAX_WORDS);
        bytes[..count].copy_from_slice(&message[..count]);
        Words { bytes, count }
    }
}

// rule: First words of a message
impl fmt::Display for Words {
    ghost output = { λ words. Some (words_in words) };

    fn fmt<W: fmt::Write>(&self, f: &mut fmt::Formatter<W>) -> fmt::Result {
        for byte in &self.bytes[..self.count.min(MAX_WORDS)] {
            f.write_char(as_printable(*byte) as char)?;
        }
        Ok(())
    }
}
