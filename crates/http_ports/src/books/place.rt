/// What is kept of a slot's connection.
#[derive(Drop)]
pub struct Place<S> {
    /// The stream.
    pub stream: S,
    /// Whether it waits for its peer.
    pub waits: bool,
}
