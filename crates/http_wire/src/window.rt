ghost use Rattle.std.specs.Prelude.{◌≡◌, ℕ, ◌+◌, ◌-◌, ◌<◌, ◌≤◌, List, [], length, take, drop, IfOk, is_ok, if◌then◌else◌};
ghost use Rattle.http_wire.specs.Devices.{Fills};

use crate::device::Source;
use std::alloc::{AllocError, Global};
use std::marker::Model;
use values::Failed;

/// The most bytes that a head may have.
pub const MAX_HEAD: usize = 16384;

/// The bytes of a connection that were read and not yet used: at most `MAX_HEAD`.
#[derive(Drop)]
pub struct Window {
    cells: Vec<u8>,
    filled: usize,
}

impl Model for Window {
    ghost Value = { List ℕ };

    ghost view = { λ w. take w.filled w.cells.items };

    ghost invariant = { λ w. (length w.cells.items ≡ 16384) × (w.filled ≤ 16384) };
}

impl Window {
    /// Makes an empty window.
    pub fn new(alloc: Global) -> Result<Window, AllocError>
        ensures { IfOk result (λ window. window ≡ []) }
    {
        let cells = vec![in alloc; 0; MAX_HEAD]?;
        Ok(Window { cells, filled: 0 })
    }

    /// Returns the bytes.
    pub fn bytes(&self) -> &[u8]
        ensures value { result.now ≡ self.now }
        ensures bound { length self.now ≤ 16384 }
    {
        &self.cells[..self.filled]
    }

    /// Reads once, after the bytes. Needs room for a byte.
    pub(crate) fn fill<S: Source>(&mut self, source: &mut S) -> Result<usize, Failed>
        requires { length self.old < 16384 }
        ensures fills { Fills (S.remaining source.old) (S.remaining source.new) self.old self.new result }
        ensures failed { S.failures source.new ≡ S.failures source.old + (if is_ok result then 0 else 1) }
    {
        let count = source.read(&mut self.cells[self.filled..])?;
        self.filled += count;
        Ok(count)
    }

    /// Drops the first `count` bytes, of which there are as many.
    pub fn discard(&mut self, count: usize)
        requires { count ≤ length self.old }
        ensures { self.new ≡ drop count self.old }
    {
        self.cells.copy_within(count..self.filled, 0);
        self.filled -= count;
    }
}
