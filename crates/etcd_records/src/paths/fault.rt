// Why a path of etcd is invalid.

use thiserror::Error;

/// Why a path that begins with `etcd://` names no history.
#[derive(Clone, Copy, Debug, Drop, PartialEq, Eq, Error)]
pub enum EtcdPathFault {
    /// Nothing is between the scheme and the slash of the prefix.
    #[error("no address")]
    NoAddress,
    /// The address with this number, counted from 1, isn't valid.
    #[error("address {0} isn't HOST:PORT")]
    BadAddress(usize),
    /// More than 16 addresses.
    #[error("more than 16 addresses")]
    ManyAddresses,
    /// Nothing is after the slash that follows the addresses, or there is no slash.
    #[error("no prefix")]
    NoPrefix,
    /// The prefix has more than 256 bytes.
    #[error("a prefix of more than 256 bytes")]
    LongPrefix,
    /// The prefix has a byte that isn't visible ASCII.
    #[error("a prefix with other characters than visible ASCII")]
    BadPrefix,
}
