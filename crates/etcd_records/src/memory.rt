// An etcd in memory, for tests.

ghost use Rattle.std.specs.Prelude.{◌≡◌, ◌++◌, ◌∷◌, []};
ghost use Rattle.etcd_records.specs.Exchanges.{exchange_of};

use crate::exchange::Exchange;
use crate::gateway::{Gateway, GatewayFault, Response};
use crate::requests::{RANGE_PATH, TXN_PATH};
use serde_json::Value;
use std::alloc::{AllocError, Global};
use std::cell::RefCell;
use streams::Trace;
use values::{Items, Text};

/// What happens to a request in memory.
#[derive(Drop)]
pub enum EtcdTurn {
    /// It is carried out, and the reply comes.
    Replies,
    /// It is carried out, and no reply comes.
    LosesReply,
    /// It is lost on its way: it isn't carried out, and no reply comes.
    LosesRequest,
    /// The server can't be reached.
    Unsent,
    /// It is carried out, and the server responds with this status and no reply of etcd.
    RespondsAfter(u16),
    /// It isn't carried out, and the server responds with this status and these bytes.
    Responds(u16, Text),
    /// Another writer puts this value, in base64, at the key of the request first; then it is carried out.
    Yields(Text),
}

/// The keys and values of an etcd in memory, both in base64, in the order in which they were created.
#[derive(Drop)]
pub struct EtcdStore {
    pairs: Vec<(Text, Text)>,
}

impl EtcdStore {
    /// Makes the store of no keys.
    pub fn new(alloc: Global) -> EtcdStore {
        EtcdStore {
            pairs: Vec::new(alloc),
        }
    }

    fn value_at(&self, key: &str) -> Option<&str> {
        for (known, value) in &self.pairs {
            if known.as_str() == key {
                return Some(value.as_str());
            }
        }
        None
    }

    // Puts a value at a key if there is none.
    fn create(&mut self, alloc: Global, key: &str, value: &str) -> Result<bool, AllocError> {
        if self.value_at(key).is_some() {
            return Ok(false);
        }
        self.pairs
            .push((Text::copy_of(alloc, key)?, Text::copy_of(alloc, value)?))?;
        Ok(true)
    }

    // The part of a reply that says what a key has.
    fn found(&self, alloc: Global, key: &str) -> Result<String, AllocError> {
        match self.value_at(key) {
            Some(value) => {
                let pair = format!(in alloc;
                    "\"key\":\"{key}\",{REVISIONS},\"value\":\"{value}\""
                )?;
                format!(in alloc; ",\"kvs\":[{{{pair}}}],\"count\":\"1\"")
            }
            None => Ok(String::new(alloc)),
        }
    }

    fn read(&self, alloc: Global, key: &str) -> Result<String, AllocError> {
        let found = self.found(alloc, key)?;
        format!(in alloc; "{{{HEADER}{found}}}")
    }

    fn put(&mut self, alloc: Global, key: &str, value: &str) -> Result<String, AllocError> {
        if self.create(alloc, key, value)? {
            return format!(in alloc; "{{{HEADER},\"succeeded\":true,\"responses\":[{{{PUT}}}]}}");
        }
        let found = self.found(alloc, key)?;
        format!(in alloc;
            "{{{HEADER},\"responses\":[{{\"response_range\":{{\"header\":{{\"revision\":\"2\"}}{found}}}}}]}}"
        )
    }
}

// What the reply to a put has.
const PUT: &str = "\"response_put\":{\"header\":{\"revision\":\"2\"}}";

// When a key was put.
const REVISIONS: &str = "\"create_revision\":\"2\",\"mod_revision\":\"2\",\"version\":\"1\"";

// What a reply begins with.
const HEADER: &str =
    "\"header\":{\"cluster_id\":\"1\",\"member_id\":\"2\",\"revision\":\"2\",\"raft_term\":\"2\"}";

fn string_at<'v>(request: &'v Value, path: &str) -> &'v str {
    request.pointer(path).and_then(Value::as_str).unwrap_or("")
}

// The key of a request, or the empty string.
fn key_of(request: &Value) -> &str {
    match request.get("key").and_then(Value::as_str) {
        Some(key) => key,
        None => string_at(request, "/compare/0/key"),
    }
}

// Whether a transaction compares that its key was never created, puts that key, and reads it otherwise.
fn is_creation(request: &Value) -> bool {
    let key = string_at(request, "/compare/0/key");
    string_at(request, "/compare/0/target") == "CREATE"
        && string_at(request, "/compare/0/result") == "EQUAL"
        && string_at(request, "/compare/0/create_revision") == "0"
        && string_at(request, "/success/0/request_put/key") == key
        && string_at(request, "/failure/0/request_range/key") == key
}

// The reply to a request, or `None` if this store doesn't understand it.
fn carry_out(
    alloc: Global,
    store: &mut EtcdStore,
    path: &str,
    request: &Value,
) -> Result<Option<String>, AllocError> {
    if path == RANGE_PATH {
        let reply = store.read(alloc, key_of(request))?;
        return Ok(Some(reply));
    }
    if path == TXN_PATH && is_creation(request) {
        let value = string_at(request, "/success/0/request_put/value");
        let reply = store.put(alloc, key_of(request), value)?;
        return Ok(Some(reply));
    }
    Ok(None)
}

fn response(status: u16, body: String) -> Response {
    Response {
        status,
        body: Items::new(body.into_bytes()),
    }
}

// The response of a server that carries the request out.
fn replied(
    alloc: Global,
    store: &mut EtcdStore,
    path: &str,
    request: &Value,
) -> Result<Response, AllocError> {
    match carry_out(alloc, store, path, request)? {
        Some(reply) => Ok(response(200, reply)),
        None => Ok(response(404, String::from_str(alloc, "Not Found")?)),
    }
}

// What comes of a request at a turn.
fn come(
    alloc: Global,
    store: &mut EtcdStore,
    turn: EtcdTurn,
    path: &str,
    request: &Value,
) -> Result<Result<Response, GatewayFault>, AllocError> {
    match turn {
        EtcdTurn::Replies => Ok(Ok(replied(alloc, store, path, request)?)),
        EtcdTurn::LosesReply => {
            replied(alloc, store, path, request)?;
            Ok(Err(GatewayFault::Unanswered))
        }
        EtcdTurn::LosesRequest => Ok(Err(GatewayFault::Unanswered)),
        EtcdTurn::Unsent => Ok(Err(GatewayFault::Unsent)),
        EtcdTurn::RespondsAfter(status) => {
            replied(alloc, store, path, request)?;
            Ok(Ok(response(status, String::new(alloc))))
        }
        EtcdTurn::Responds(status, body) => Ok(Ok(response(status, body.into_string()))),
        EtcdTurn::Yields(value) => {
            store.create(alloc, key_of(request), value.as_str())?;
            Ok(Ok(replied(alloc, store, path, request)?))
        }
    }
}

/// A server's gateway to an etcd in memory, which several gateways share.
#[derive(Drop)]
pub struct MemoryGateway<'a> {
    /// The keys and values.
    pub store: &'a RefCell<EtcdStore>,
    /// What happens at the next requests, the next one last. Without a turn the reply comes.
    pub turns: Vec<EtcdTurn>,
    exchanges: Trace<Exchange>,
}

impl<'a> MemoryGateway<'a> {
    /// Makes the gateway to a store, at whose requests these turns happen, the last one first.
    pub fn new(store: &'a RefCell<EtcdStore>, turns: Vec<EtcdTurn>) -> MemoryGateway<'a> {
        MemoryGateway {
            store,
            turns,
            exchanges: Trace::new(),
        }
    }

    // What comes of the next request.
    fn carry(&mut self, alloc: Global, path: &str, body: &[u8]) -> Result<Response, GatewayFault>
        ensures { self.new.exchanges ≡ self.old.exchanges }
    {
        let turn = self.turns.pop().unwrap_or(EtcdTurn::Replies);
        let Ok(request) = Value::from_slice(alloc, body) else {
            return Ok(response(400, String::new(alloc)));
        };
        let Ok(mut store) = self.store.try_borrow_mut() else {
            return Err(GatewayFault::Unanswered);
        };
        match come(alloc, &mut store, turn, path, &request) {
            Ok(came) => came,
            Err(_) => Err(GatewayFault::Memory),
        }
    }
}

impl Gateway for MemoryGateway<'_> {
    ghost exchanges = { λ gateway. gateway.exchanges };

    fn post(&mut self, alloc: Global, path: &str, body: &[u8]) -> Result<Response, GatewayFault> {
        let came = self.carry(alloc, path, body);
        self.exchanges.push(&Exchange::of(path, body, &came));
        came
    }

    fn go_on(&mut self) {}
}
