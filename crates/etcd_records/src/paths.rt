//! The path of a history in etcd: `etcd://HOST:PORT,HOST:PORT/PREFIX`.
//!
//! `parse_etcd_path` finds the addresses and the prefix of such a path, or why it is invalid. Read `specs/Paths.antt`.
//!
//! It looks up no name and connects to nothing.

mod address;
mod fault;
mod path;

pub use crate::paths::fault::EtcdPathFault;
pub use crate::paths::path::{EtcdPath, is_etcd_path, parse_etcd_path};
