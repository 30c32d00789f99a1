//! A client that asks a server for updates and installs nothing but what it was offered.
//!
//! `Link` is what carries bytes from a server, `Installer` what keeps them. `install` stages one file block by block
//! under a running SHA-256 and commits it only if its length and its digest are those that were offered; else the
//! installer discards what was staged. `Client::walk` asks, installs what is offered, and asks again until there is no
//! update. Read `specs/Installing.antt`, then `specs/Clients.antt` and `specs/Walks.antt`.
//!
//! `HttpLink` is the `Link` over TCP, a connection for each post and each download, with a time limit for each post and
//! each 64 KiB of a download. `post_over` and `open_over` do so over any source and sink, and `post_to` returns replies
//! of any status: read `specs/Replies.antt` and `specs/Bodies.antt`. `walk_app` walks and prints a line for each step,
//! `walk_app_at` of a `Connector` does so over TCP, and `operate_at` posts to an operator's listener, whose end
//! `is_gone` sees: read `specs/Lines.antt`, `specs/Walking.antt` and `specs/Endings.antt`.
//!
//! `heads` has the head of a reply as a client reads it, and the requests that a client sends; `chunked` has the body
//! of a reply in the chunked transfer coding.
//!
//! It keeps no file, follows no redirect, reads no arguments, and looks for no server.

#![tactic(auto)]

mod body;
mod chunked;
mod client;
mod connecting;
mod fault;
mod handing;
mod heads;
mod hearing;
mod http_link;
mod installer;
mod installing;
mod keeper;
mod lines;
mod link;
mod opening;
mod posting;
mod presence;
mod printed_walk;
mod reading;
mod timed;
mod walk_at;
mod walking;

pub use crate::body::Body;
pub use crate::chunked::{BLOCK, MAX_CHUNK_LINE, read_chunked, read_more};
pub use crate::client::Client;
pub use crate::connecting::post_to;
pub use crate::fault::Fault;
pub use crate::heads::{
    Address, BodyLength, LinkFault, MAX_FIELDS, MAX_HEAD, Post, Start, body_length, get_request,
    parse_address, post_request, read_start,
};
pub use crate::hearing::Accepted;
pub use crate::http_link::{HttpLink, MAX_REPLY, UPDATE_PATH};
pub use crate::installer::{Installer, Step};
pub use crate::installing::install;
pub use crate::lines::DoneLine;
pub use crate::link::Link;
pub use crate::opening::open_over;
pub use crate::posting::{Reply, post_over};
pub use crate::presence::Patience;
pub use crate::printed_walk::walk_app;
pub use crate::walk_at::{Connector, Limits};
pub use crate::walking::{MAX_STEPS, Walk};
pub use values::Failed;
