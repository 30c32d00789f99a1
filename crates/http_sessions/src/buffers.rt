ghost use Rattle.std.specs.Prelude.{◌≡◌, length, vec_len};

use http_desks::BLOCK;
use http_wire::{MAX_BODY, MAX_FIELDS, MAX_HEAD};
use httparse::spans::{EMPTY_HEADER_SPAN, HeaderSpan};
use std::alloc::{AllocError, Global};

/// Room for one message and its reply. Sessions may take turns with it: it holds nothing between two
/// messages.
pub struct Buffers {
    pub(crate) fields: Vec<HeaderSpan>,
    pub(crate) target: Vec<u8>,
    pub(crate) body: Vec<u8>,
    pub(crate) block: Vec<u8>,
    ghost places: { vec_len fields ≡ 5461 },
    ghost heads: { vec_len target ≡ 16384 },
    ghost bodies: { vec_len body ≡ 262144 },
    ghost blocks: { vec_len block ≡ 65536 },
}

// Written out, so that no caller proves again how each part is dropped.
impl Drop for Buffers {
    fn drop(self) {
        let Buffers {
            fields: _,
            target: _,
            body: _,
            block: _,
        } = self;
    }
}

impl Buffers {
    /// Makes the buffers.
    pub fn new(alloc: Global) -> Result<Buffers, AllocError> {
        let fields = vec![in alloc; EMPTY_HEADER_SPAN; MAX_FIELDS]?;
        let target = vec![in alloc; 0; MAX_HEAD]?;
        let body = vec![in alloc; 0; MAX_BODY as usize]?;
        let block = vec![in alloc; 0; BLOCK as usize]?;
        Ok(Buffers {
            fields,
            target,
            body,
            block,
        })
    }

    /// Returns the room for a reply, of `BLOCK` bytes.
    pub fn block(&mut self) -> &mut [u8]
        ensures { length result.now ≡ 65536 }
    {
        &mut self.block
    }
}
