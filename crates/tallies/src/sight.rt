//! The status of a reply, in what is written of it.

ghost use Rattle.std.specs.Prelude.{◌≡◌};
ghost use Rattle.tallies.specs.Statuses.{completed, nothing, step, written};

// How many bytes of a reply come before its status, as `HTTP/1.1 `.
const BEFORE: u8 = 9;

// How many bytes of a reply end with its status.
const WHOLE: u8 = 12;

/// What was seen of the first bytes of a reply, which may be written in parts.
#[derive(Clone, Copy)]
pub struct StatusSight {
    /// How many of them were written, 12 at most.
    pub count: u8,
    /// The status as far as it was written.
    pub code: u16,
}

impl StatusSight {
    /// Nothing was written yet.
    pub fn new() -> StatusSight
        ensures { result ≡ nothing }
    {
        StatusSight { count: 0, code: 0 }
    }

    // One more byte.
    fn step(self, byte: u8) -> StatusSight
        ensures { result ≡ step self byte }
    {
        let StatusSight { count, code } = self;
        if count < BEFORE {
            StatusSight {
                count: count + 1,
                code,
            }
        } else if count < WHOLE {
            StatusSight {
                count: count + 1,
                code: code % 100 * 10 + (byte % 16) as u16,
            }
        } else {
            self
        }
    }

    // What is seen after some more bytes.
    fn after(self, bytes: &[u8]) -> StatusSight
        ensures { result ≡ written self bytes.now }
    {
        let most = WHOLE.saturating_sub(self.count) as usize;
        let mut sight = self;
        for byte in &bytes[..bytes.len().min(most)] {
            sight = sight.step(*byte);
        }
        sight
    }

    // What is seen after some more bytes, of which those before the status only count.
    fn past(self, bytes: &[u8]) -> StatusSight
        ensures { result ≡ written self bytes.now }
    {
        let skipped = bytes.len().min(BEFORE.saturating_sub(self.count) as usize);
        let sight = StatusSight {
            count: self.count + skipped as u8,
            code: self.code,
        };
        sight.after(&bytes[skipped..])
    }

    // rule: Status of a reply in parts
    /// Notes bytes of the reply, and returns the status if they are the first with which it is whole.
    pub fn write(&mut self, bytes: &[u8]) -> Option<u16>
        ensures sight { self.new ≡ written self.old bytes.now }
        ensures code { result ≡ completed self.old self.new }
    {
        let before = self.count;
        let sight = self.past(bytes);
        *self = sight;
        if before < WHOLE && sight.count == WHOLE {
            Some(sight.code)
        } else {
            None
        }
    }
}
