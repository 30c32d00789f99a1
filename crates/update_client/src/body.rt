ghost use Rattle.std.specs.Prelude.{◌≤◌, vec_len};

/// What is left of a download's body: the bytes that came with its head, and how many are still to come.
pub struct Body {
    // the bytes that were read with the head, the head included
    pub(crate) held: Vec<u8>,
    // how many of these were used
    pub(crate) at: usize,
    // how many bytes are still to be handed on
    pub(crate) left: u64,
    ghost used: { at ≤ vec_len held },
}

// Written out, so that no caller proves again how each part is dropped.
impl Drop for Body {
    fn drop(self) {
        let Body {
            held: _,
            at: _,
            left: _,
        } = self;
    }
}
