// Records in etcd, over a store in memory, and over strings that etcd 3.4 replied.

ghost use Rattle.std.specs.Prelude.{◌≡◌};

use crate::calls::follows;
use etcd_records::{
    EtcdRecords, EtcdStore, EtcdTurn, Exchange, Gateway, GatewayFault, MemoryGateway, Response,
};
use kept_records::Records;
use std::alloc::Global;
use std::cell::RefCell;
use streams::Trace;
use values::{Items, Text};

// What happens to the requests of a first handle, to those of a second one, and the calls of either: `1` and `2` say
// whose come next. Each request is posted at most twice.
const ROWS: &str = "\
| | 1 p:A=ok s:B=ok r:C=ok n=none s:=ok c3:Z=failed
lost | | 1 p:A=ok s:B=ok n=none
lost lost | | 1 p:A=unknown n=p:A n=none s:B=ok
lost lost | | 1 p:A=unknown n=p:A u=yes u=no n=p:A s:B=ok u=no n=none
dropped | | 1 p:A=ok n=none
dropped dropped | | 1 p:A=unknown n=none s:B=ok
dropped lost | | 1 p:A=unknown n=p:A
unsent | | 1 p:A=ok n=none
unsent unsent | | 1 p:A=failed n=none s:B=ok
unsent lost | | 1 p:A=unknown n=p:A
lost unsent | | 1 p:A=unknown n=p:A
unsent dropped | | 1 p:A=unknown n=none
. unsent lost | | 1 p:A=ok s:B=unknown n=s:B n=none
. . dropped dropped | | 1 p:A=ok s:B=ok s:C=unknown n=none s:C=ok
503 | | 1 p:A=ok
500 503 | | 1 p:A=unknown n=none s:B=ok
done500 | | 1 p:A=ok n=none
done503 unsent | | 1 p:A=unknown n=p:A
400 413 | | 1 p:A=failed n=none s:B=ok
lost 400 | | 1 p:A=unknown n=p:A
garbled | | 1 p:A=ok
empty garbled | | 1 p:A=unknown n=none
torn | | 1 p:A=ok n=none
foreign | | 1 p:A=ok n=none
older | | 1 p:A=ok n=none
foreign older | | 1 p:A=unknown n=none p:A=ok
. older foreign | | 1 p:A=ok n=failed n=none
. newer | | 1 p:A=ok n=none n=failed s:B=unknown
foreign other=c2NyaXB0Clg= | | 1 p:A=taken n=s:X
other=c2NyaXB0Clg= | | 1 p:A=taken n=s:X n=none p:A=ok
other=cHJvZmlsZQpB | | 1 p:A=taken n=p:A n=none
dropped other=c2NyaXB0Clg= | | 1 p:A=taken n=s:X
dropped other=cHJvZmlsZQpB | | 1 p:A=ok n=none
lost other=c2NyaXB0Clg= | | 1 p:A=ok n=none
other=aGVsbG8= | | 1 p:A=taken n=failed n=failed
other=cHJvZmlsZQ== | | 1 p:A=taken n=failed
other= | | 1 p:A=taken n=failed
. lost | | 1 p:A=ok n=none
. unsent unsent | | 1 p:A=ok n=failed n=none
. dropped dropped | | 1 p:A=ok n=failed n=none
. 500 garbled | | 1 p:A=ok n=failed n=none
| | 1 p:A=ok 2 s:B=taken n=p:A s:B=ok 1 r:C=taken n=s:B r:C=ok 2 n=r:C n=none 1 n=none
lost lost | | 1 p:A=unknown 2 s:B=taken n=p:A s:B=ok 1 n=p:A n=s:B n=none
dropped dropped | | 1 p:A=unknown 2 s:B=ok 1 n=s:B p:A=ok 2 n=p:A
dropped lost | unsent unsent | 1 p:A=unknown 2 s:B=failed n=p:A 1 n=p:A n=none
| lost | 1 p:A=ok 2 p:A=ok 1 n=none s:B=ok 2 n=s:B";

// Replies in which nothing is found: without a revision, of another cluster, of an older state and of a newer one.
const TORN: &str = "{\"header\":{\"cluster_id\":\"1\",\"revision\":\"+3\"}}";

const FOREIGN: &str = "{\"header\":{\"cluster_id\":\"7\",\"revision\":\"9\"}}";

const OLDER: &str = "{\"header\":{\"cluster_id\":\"1\",\"revision\":\"1\"}}";

const NEWER: &str = "{\"header\":{\"cluster_id\":\"1\",\"revision\":\"3\"}}";

fn responding(alloc: Global, status: u16, body: &str) -> Option<EtcdTurn> {
    let body = Text::copy_of(alloc, body).ok()?;
    Some(EtcdTurn::Responds(status, body))
}

fn yielding(alloc: Global, value: &str) -> Option<EtcdTurn> {
    let value = Text::copy_of(alloc, value).ok()?;
    Some(EtcdTurn::Yields(value))
}

fn turn_of(alloc: Global, word: &str) -> Option<EtcdTurn> {
    if let Some(value) = word.strip_prefix("other=") {
        return yielding(alloc, value);
    }
    if let Some(status) = word.strip_prefix("done") {
        return Some(EtcdTurn::RespondsAfter(status.parse().ok()?));
    }
    match word {
        "." => Some(EtcdTurn::Replies),
        "lost" => Some(EtcdTurn::LosesReply),
        "dropped" => Some(EtcdTurn::LosesRequest),
        "unsent" => Some(EtcdTurn::Unsent),
        "garbled" => responding(alloc, 200, "<html>"),
        "empty" => responding(alloc, 200, "{}"),
        "torn" => responding(alloc, 200, TORN),
        "foreign" => responding(alloc, 200, FOREIGN),
        "older" => responding(alloc, 200, OLDER),
        "newer" => responding(alloc, 200, NEWER),
        status => responding(alloc, status.parse().ok()?, ""),
    }
}

// The turns of a handle, after that of the read by which it is opened.
fn turns_of(alloc: Global, words: &str) -> Option<Vec<EtcdTurn>> {
    let mut turns = Vec::new(alloc);
    for word in words.split_whitespace() {
        turns.insert(0, turn_of(alloc, word)?).ok()?;
    }
    turns.push(EtcdTurn::Replies).ok()?;
    Some(turns)
}

// A handle of at most six bytes, which posts each request at most so many times.
fn open<G: Gateway + Drop>(
    alloc: Global,
    gateway: G,
    attempts: u32,
    prefix: &str,
) -> Option<EtcdRecords<G>> {
    let Ok(prefix) = Text::copy_of(alloc, prefix) else {
        return None;
    };
    match EtcdRecords::open(alloc, gateway, attempts, prefix, 6) {
        Ok((records, _)) => Some(records),
        Err(_) => None,
    }
}

// Whether each call comes to what the row says.
fn both_follow<R: Records>(alloc: Global, one: &mut R, two: &mut R, calls: &str) -> Option<bool> {
    let mut is_first = true;
    for word in calls.split_whitespace() {
        match word {
            "1" => is_first = true,
            "2" => is_first = false,
            call => {
                let handle = if is_first { &mut *one } else { &mut *two };
                if !follows(handle, alloc, call)? {
                    return Some(false);
                }
            }
        }
    }
    Some(true)
}

// The same of handles that were opened. Its callers prove nothing of what a handle has.
fn share<R: Records + Drop>(
    alloc: Global,
    one: Option<R>,
    two: Option<R>,
    calls: &str,
) -> Option<bool> {
    let (Some(mut one), Some(mut two)) = (one, two) else {
        return None;
    };
    both_follow(alloc, &mut one, &mut two, calls)
}

// A handle over a store, with such turns.
fn handle_of<'a>(
    alloc: Global,
    store: &'a RefCell<EtcdStore>,
    words: &str,
) -> Option<EtcdRecords<MemoryGateway<'a>>> {
    let turns = turns_of(alloc, words)?;
    open(alloc, MemoryGateway::new(store, turns), 2, "omaha/")
}

fn is_so(alloc: Global, row: &str) -> Option<bool> {
    let (first, rest) = row.split_once('|')?;
    let (second, calls) = rest.split_once('|')?;
    let store = RefCell::new(EtcdStore::new(alloc));
    let one = handle_of(alloc, &store, first);
    share(alloc, one, handle_of(alloc, &store, second), calls)
}

// rule: Append to etcd
// rule: Read from etcd
// rule: Attempts of a request
// rule: Attempt at a request
// rule: Rejected request
// rule: Replies of one cluster
// rule: Known records in etcd
// rule: One history for all servers
#[test]
fn shares_records_by_their_turns(rt: HostRuntime) {
    for row in ROWS.lines() {
        assert!(rt; is_so(rt.alloc(), row) == Some(true), "{row}");
    }
}

// Strings that etcd 3.4.23 replied: to the first append of `history/00000001`, to the second one, to a read of it, and to a
// read of the key after it.
const CREATED: &str =
    "{\"header\":{\"cluster_id\":\"324952591200643719\",\"member_id\":\"3319814642761637952\",\"revision\":\"2\",\"raft_term\":\"2\"},\"succeeded\":true,\"responses\":[{\"response_put\":{\"header\":{\"revision\":\"2\"}}}]}";

const HELD: &str =
    "{\"header\":{\"cluster_id\":\"324952591200643719\",\"member_id\":\"3319814642761637952\",\"revision\":\"2\",\"raft_term\":\"2\"},\"responses\":[{\"response_range\":{\"header\":{\"revision\":\"2\"},\"kvs\":[{\"key\":\"aGlzdG9yeS8wMDAwMDAwMQ==\",\"create_revision\":\"2\",\"mod_revision\":\"2\",\"version\":\"1\",\"value\":\"cHJvZmlsZQp4\"}],\"count\":\"1\"}}]}";

const FOUND: &str =
    "{\"header\":{\"cluster_id\":\"324952591200643719\",\"member_id\":\"3319814642761637952\",\"revision\":\"2\",\"raft_term\":\"2\"},\"kvs\":[{\"key\":\"aGlzdG9yeS8wMDAwMDAwMQ==\",\"create_revision\":\"2\",\"mod_revision\":\"2\",\"version\":\"1\",\"value\":\"cHJvZmlsZQp4\"}],\"count\":\"1\"}";

const NONE: &str =
    "{\"header\":{\"cluster_id\":\"324952591200643719\",\"member_id\":\"3319814642761637952\",\"revision\":\"2\",\"raft_term\":\"2\"}}";

// What etcd 3.4.23 was sent when it replied so.
const APPEND: &str =
    "{\"compare\":[{\"key\":\"aGlzdG9yeS8wMDAwMDAwMQ==\",\"target\":\"CREATE\",\"result\":\"EQUAL\",\"create_revision\":\"0\"}],\"success\":[{\"request_put\":{\"key\":\"aGlzdG9yeS8wMDAwMDAwMQ==\",\"value\":\"cHJvZmlsZQp4\"}}],\"failure\":[{\"request_range\":{\"key\":\"aGlzdG9yeS8wMDAwMDAwMQ==\"}}]}";

const READ: &str = "{\"key\":\"aGlzdG9yeS8wMDAwMDAwMQ==\"}";

const READ_TWO: &str = "{\"key\":\"aGlzdG9yeS8wMDAwMDAwMg==\"}";

// A path, what is posted to it, and the reply.
type Posted<'a> = (&'a str, &'a str, &'a str);

// Replies these strings to these requests, in order, and nothing to any other.
#[derive(Drop)]
struct Script<'a> {
    rows: &'a [Posted<'a>],
    exchanges: Trace<Exchange>,
}

impl Script<'_> {
    fn reply(&mut self, alloc: Global, path: &str, body: &[u8]) -> Option<Response>
        ensures { self.new.exchanges ≡ self.old.exchanges }
    {
        let [(wanted_path, wanted_body, reply), rest @ ..] = self.rows else {
            return None;
        };
        self.rows = rest;
        if path != *wanted_path || body != wanted_body.as_bytes() {
            return None;
        }
        let body = Vec::from_slice(alloc, reply.as_bytes()).ok()?;
        Some(Response {
            status: 200,
            body: Items::new(body),
        })
    }
}

impl Gateway for Script<'_> {
    ghost exchanges = { λ script. script.exchanges };

    fn post(&mut self, alloc: Global, path: &str, body: &[u8]) -> Result<Response, GatewayFault> {
        let came = self
            .reply(alloc, path, body)
            .ok_or(GatewayFault::Unanswered);
        self.exchanges.push(&Exchange::of(path, body, &came));
        came
    }

    fn go_on(&mut self) {}
}

// Whether records make these calls, if there are any.
fn follows_opened<R: Records + Drop>(
    alloc: Global,
    records: Option<R>,
    calls: &str,
) -> Option<bool> {
    let mut records = records?;
    follows(&mut records, alloc, calls)
}

// Whether a handle that is opened by the rows then makes these calls.
fn follows_script(alloc: Global, rows: &[Posted<'_>], calls: &str) -> Option<bool> {
    let script = Script {
        rows,
        exchanges: Trace::new(),
    };
    follows_opened(alloc, open(alloc, script, 1, "history/"), calls)
}

const TXN: &str = "/v3/kv/txn";

const RANGE: &str = "/v3/kv/range";

// What is posted and replied, the calls of the handle, and whether it makes them; `None` if it isn't opened.
const SCRIPTS: [(&[Posted<'static>], &str, Option<bool>); 4] = [
    (
        &[
            (RANGE, READ, NONE),
            (TXN, APPEND, CREATED),
            (RANGE, READ_TWO, NONE),
        ],
        "p:x=ok n=none",
        Some(true),
    ),
    (
        &[
            (RANGE, READ, NONE),
            (TXN, APPEND, HELD),
            (RANGE, READ, FOUND),
        ],
        "p:x=taken n=p:x",
        Some(true),
    ),
    (
        &[
            (RANGE, READ, FOUND),
            (RANGE, READ_TWO, NONE),
            (RANGE, READ_TWO, NONE),
        ],
        "n=none",
        Some(true),
    ),
    (&[(RANGE, READ, FOUND)], "", None),
];

// rule: Requests to etcd
// rule: Reply of etcd
// rule: Key of a record in etcd
// rule: Value of a record in etcd
// rule: Opened history in etcd
#[test]
fn speaks_as_etcd_does(rt: HostRuntime) {
    for (rows, calls, wanted) in SCRIPTS {
        assert!(rt;
            follows_script(rt.alloc(), rows, calls) == wanted,
            "{calls}"
        );
    }
}
