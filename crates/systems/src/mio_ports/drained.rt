// Sockets that have given all that had come.

use std::alloc::{AllocError, Global};

// What is known of a slot's socket.
#[derive(Clone, Copy, Drop)]
enum Input {
    // More may have come.
    Open,
    // All that had come was read, and the system has reported nothing since.
    Drained,
    // The peer sends no more, so its end is to be read.
    Ending,
}

/// The slots whose sockets need not be read before the system reports them again: a read that leaves room has taken all
/// that had come. It takes memory when it is made, and no more.
#[derive(Drop)]
pub(crate) struct DrainedList {
    inputs: Vec<Input>,
}

impl DrainedList {
    /// Makes a list for so many slots, without one.
    pub(crate) fn new(alloc: Global, slots: usize) -> Result<DrainedList, AllocError> {
        let inputs = vec![in alloc; Input::Open; slots]?;
        Ok(DrainedList { inputs })
    }

    // Sets what is known of a slot.
    fn set(&mut self, slot: usize, input: Input) {
        if let Some(known) = self.inputs.get_mut(slot) {
            *known = input;
        }
    }

    /// Notes that a slot has a new connection.
    pub(crate) fn accepted(&mut self, slot: usize) {
        self.set(slot, Input::Open);
    }

    /// Notes that the system reports a slot, and whether its peer sends no more.
    pub(crate) fn reported(&mut self, slot: usize, ends: bool) {
        self.set(slot, if ends { Input::Ending } else { Input::Open });
    }

    /// Notes that a read of a slot left room.
    pub(crate) fn read(&mut self, slot: usize) {
        if let Some(Input::Open) = self.inputs.get(slot) {
            self.set(slot, Input::Drained);
        }
    }

    /// Whether nothing is to be read at a slot.
    pub(crate) fn has(&self, slot: usize) -> bool {
        matches!(self.inputs.get(slot), Some(Input::Drained))
    }
}
