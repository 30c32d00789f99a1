//! Histories in etcd over TCP, beside those in files.
//!
//! A `TcpGateway` is the `Gateway` over TCP: it posts to one of several addresses, each time over a connection of its
//! own, and after a failure goes on to the next one. Read `specs/Turns.antt`. `AnyStores` opens a path of etcd, and
//! every other one by other stores: read `specs/Stores.antt`.
//!
//! It keeps no connection, and neither encrypts nor names itself to etcd.

mod any_records;
mod any_stores;
mod tcp_gateway;

pub use crate::gateways::any_records::AnyRecords;
pub use crate::gateways::any_stores::AnyStores;
pub use crate::gateways::tcp_gateway::{MAX_REPLY, TcpGateway};
