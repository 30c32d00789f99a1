use std::net::IpAddr;

/// What a line of the log says of a reply.
#[derive(Clone, Copy)]
pub struct Entry<'a> {
    /// The client's address, if the system gave it.
    pub(crate) address: Option<IpAddr>,
    /// When the reply had been written, in seconds since 1970.
    pub(crate) seconds: u64,
    /// The first line of the message.
    pub(crate) line: &'a [u8],
    /// The status of the reply, if its head was written whole.
    pub(crate) status: Option<u16>,
    /// How many bytes of the reply's body were written.
    pub(crate) size: u64,
    /// The value of the field `Referer`.
    pub(crate) referrer: Option<&'a [u8]>,
    /// The value of the field `User-Agent`.
    pub(crate) agent: Option<&'a [u8]>,
}
