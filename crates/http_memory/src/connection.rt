ghost use Rattle.std.specs.Prelude.{◌≡◌, [], None};

use crate::input::Input;
use crate::output::Output;
use std::alloc::Global;

/// A connection in memory: what the peer sends, and what it gets.
#[derive(Drop)]
pub struct Connection<'a> {
    /// What the peer sends.
    pub input: Input<'a>,
    /// What the peer gets.
    pub output: Output,
}

impl<'a> Connection<'a> {
    /// Makes the connection of a peer that sends these bytes, and gives and accepts pieces of this length.
    pub fn new(alloc: Global, sent: &'a [u8], piece: usize) -> Connection<'a>
        ensures input { result.input.left.now ≡ sent.now }
        ensures output { result.output.bytes.items ≡ [] }
        ensures pieces { (result.input.piece ≡ piece) × (result.output.piece ≡ piece) }
        ensures fails { (result.input.fails_after ≡ None) × (result.output.fails_after ≡ None) }
        ensures counts { (result.output.calls ≡ 0) × (result.output.failures ≡ 0) × (result.input.failures ≡ 0) }
    {
        Connection {
            input: Input::new(sent, piece),
            output: Output::new(alloc, piece),
        }
    }
}
