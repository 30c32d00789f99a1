ghost use Rattle.std.specs.Prelude.{◌≡◌, ◌++◌, OnErr, OnOk};
ghost use Rattle.std.specs.Io.KnownBytes.{Appends};
ghost use Rattle.streams.specs.Writing.{Breaks};
ghost use Rattle.access_logs.specs.Pages.{IsUncut};
ghost use Rattle.access_logs.specs.Queues.{IsPut, end_of};

use std::io;
use streams::WriteWhole;

/// What a log is written to, and whether it ends in a part of a line.
#[derive(Drop)]
pub struct Page<'a, W: WriteWhole> {
    pub(crate) out: &'a mut W,
    pub(crate) is_cut: bool,
}

impl<'a, W: WriteWhole> Page<'a, W> {
    /// Makes the page of a writer that ends in a whole line, or has none.
    pub fn new(out: &'a mut W) -> Page<'a, W>
        ensures out { result.out.ghost_name ≡ out.entry.ghost_name }
        ensures same { W.output result.out.now ≡ W.output out.old }
        ensures whole { IsUncut result }
    {
        Page { out, is_cut: false }
    }

    /// Gives back the writer.
    pub fn into_inner(self) -> &'a mut W
        ensures out { result.ghost_name ≡ self.entry.out.ghost_name }
        ensures same { result.now ≡ self.entry.out.now }
    {
        self.out
    }
}

impl<W: WriteWhole> Page<'_, W> {
    // Writes lines, after a line feed if the log ends in a part of one.
    fn put(&mut self, lines: &[u8]) -> io::Result<()>
        ensures out { self.new.out.ghost_name ≡ self.old.out.ghost_name }
        ensures cut { self.new.is_cut ≡ self.old.is_cut }
        ensures ok { OnOk result
            (Appends (W.output self.old.out.now).bytes (W.output self.new.out.now).bytes (end_of self.old.is_cut ++ lines.now)) }
        ensures err { OnErr result
            (Breaks (W.output self.old.out.now) (W.output self.new.out.now) (end_of self.old.is_cut ++ lines.now)) }
    {
        if !self.is_cut {
            return self.out.write_whole(lines);
        }
        self.out.write_whole(b"\n")?;
        self.out.write_whole(lines)
    }

    /// Writes lines. What can't be written is lost; then the log may end in a part of a line, which the next lines end.
    pub(crate) fn append(&mut self, lines: &[u8])
        ensures out { self.new.out.ghost_name ≡ self.old.out.ghost_name }
        ensures put { IsPut (end_of self.old.is_cut ++ lines.now) (W.output self.old.out.now) (W.output self.new.out.now)
            self.new.is_cut }
    {
        self.is_cut = self.put(lines).is_err();
    }
}
