ghost use Rattle.std.specs.Prelude.{◌≡◌, ◌≤◌, ◌<◌, ◌+◌, length, IfOk, is_ok, if◌then◌else◌};
ghost use Rattle.std.specs.Io.KnownBytes.{WriteAppends};

use crate::device::Sink;
use crate::watch::Watch;
use values::Failed;

/// A sink whose bytes a watch is shown.
#[derive(Drop)]
pub struct WatchedSink<'a, W: Sink + Drop, V: Watch> {
    sink: W,
    watch: &'a V,
}

impl<'a, W: Sink + Drop, V: Watch> WatchedSink<'a, W, V> {
    /// Shows a watch what is written to a sink.
    pub fn new(sink: W, watch: &'a V) -> WatchedSink<'a, W, V>
        ensures { result.sink ≡ sink }
    {
        WatchedSink { sink, watch }
    }
}

impl<'a, W: Sink + Drop, V: Watch> Sink for WatchedSink<'a, W, V> {
    ghost contents = { λ watched. W.contents watched.sink };

    ghost failures = { λ watched. W.failures watched.sink };

    fn write(&mut self, bytes: &[u8]) -> Result<usize, Failed> {
        let count = self.sink.write(bytes)?;
        self.watch.writes(&bytes[..count]);
        Ok(count)
    }
}
