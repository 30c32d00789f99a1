/// What the last call for a connection came to.
#[derive(Clone, Copy, Drop)]
pub enum Last {
    /// The connection was reported, and no call was made since.
    Reported,
    /// Bytes were read or written.
    Passed,
    /// There was nothing to read yet.
    WaitsToRead,
    /// There was no room to write yet.
    WaitsToWrite,
    /// The connection is to be reported again.
    Yields,
    /// There is no more to read.
    InputEnded,
    /// A read failed.
    ReadFailed,
    /// A write failed.
    WriteFailed,
}
