ghost use Rattle.std.specs.Prelude.{◌≡◌, ◌≤◌, ◌+◌, length, IfOk, is_ok, if◌then◌else◌};
ghost use Rattle.std.specs.Io.KnownBytes.{ReadConsumes};

use crate::device::Source;
use crate::watch::Watch;
use values::Failed;

/// A source whose bytes a watch is shown.
#[derive(Drop)]
pub struct WatchedSource<'a, S: Source + Drop, V: Watch> {
    source: S,
    watch: &'a V,
}

impl<'a, S: Source + Drop, V: Watch> WatchedSource<'a, S, V> {
    /// Shows a watch what is read from a source.
    pub fn new(source: S, watch: &'a V) -> WatchedSource<'a, S, V>
        ensures { result.source ≡ source }
    {
        WatchedSource { source, watch }
    }
}

impl<'a, S: Source + Drop, V: Watch> Source for WatchedSource<'a, S, V> {
    ghost remaining = { λ watched. S.remaining watched.source };

    ghost failures = { λ watched. S.failures watched.source };

    fn read(&mut self, into: &mut [u8]) -> Result<usize, Failed> {
        let count = self.source.read(into)?;
        self.watch.reads(&into[..count]);
        Ok(count)
    }
}
