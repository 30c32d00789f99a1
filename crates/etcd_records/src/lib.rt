//! The records of servers that share a history in etcd, over its JSON gateway.
//!
//! An `EtcdRecords` posts requests by a `Gateway`, which carries each once to some server: the records know no network.
//! It opens the history whose keys begin with a prefix, and returns its records. Then it appends and reads as `Records`
//! does, each request posted again until a server replies. Read `specs/Keys.antt` and `specs/Requests.antt`: what etcd
//! keeps, and what it is asked; then `specs/Appending.antt`: what a call comes to by the replies. `laws` says that
//! servers which share a history know one history.
//!
//! A `MemoryGateway` is for tests: it understands the requests, and a list of `EtcdTurn`s says what happens to each.
//!
//! `paths` reads the path of a history in etcd. `gateways` has the `Gateway` over TCP, and opens histories in etcd
//! beside those in files.
//!
//! It doesn't know what a record says. It can't know whether etcd keeps what it replied to, nor whether somebody
//! deletes the keys.

#![tactic(auto)]

mod appending;
mod asking;
mod exchange;
mod gateway;
mod gateways;
mod handle;
mod headers;
mod keys;
pub mod laws;
mod memory;
mod opening;
mod paths;
mod replies;
mod requests;
mod verdicts;

pub use crate::exchange::{Exchange, Outcome};
pub use crate::gateway::{Gateway, GatewayFault, Response};
pub use crate::gateways::{AnyRecords, AnyStores, MAX_REPLY, TcpGateway};
pub use crate::handle::EtcdRecords;
pub use crate::memory::{EtcdStore, EtcdTurn, MemoryGateway};
pub use crate::paths::{EtcdPath, EtcdPathFault, is_etcd_path, parse_etcd_path};
