use omaha_json::{AppReply, AppState, CheckReply, KnownApp, Offer, Part, Reply, read_reply};
use std::alloc::{AllocError, Global};
use values::ReadError;

// Puts at the end what bytes are read as: the reply's parts, or its fault as it is printed.
fn push_read(alloc: Global, text: &mut String, body: &[u8]) -> Result<(), AllocError> {
    match read_reply(alloc, body) {
        Ok(reply) => push_reply(alloc, text, &reply),
        Err(ReadError::Fault(fault)) => write!(text, "{fault}"),
        Err(ReadError::Memory) => Err(AllocError),
    }
}

fn push_reply(alloc: Global, text: &mut String, reply: &Reply) -> Result<(), AllocError> {
    let (days, seconds) = (reply.days, reply.seconds);
    write!(text, "{days} {seconds}")?;
    for app in reply.apps.as_slice() {
        push_app(alloc, text, app)?;
    }
    Ok(())
}

fn push_app(alloc: Global, text: &mut String, app: &AppReply) -> Result<(), AllocError> {
    text.push_str("; ")?;
    text.push_str(app.appid.as_str())?;
    match &app.state {
        AppState::Known(known) => push_known(alloc, text, known),
        AppState::Unknown => text.push_str(" unknown"),
        AppState::Other => text.push_str(" other"),
    }
}

fn push_known(alloc: Global, text: &mut String, app: &KnownApp) -> Result<(), AllocError> {
    let (cohort, name) = (app.cohort.as_str(), app.name.as_str());
    let (ping, events) = (app.ping, app.events);
    write!(text, " c{cohort} n{name} {ping} {events}")?;
    match &app.check {
        None => Ok(()),
        Some(CheckReply::NoUpdate) => text.push_str(" noupdate"),
        Some(CheckReply::Internal) => text.push_str(" internal"),
        Some(CheckReply::Offered(offer)) => push_offer(alloc, text, offer),
        Some(CheckReply::Other) => text.push_str(" another"),
    }
}

fn push_offer(alloc: Global, text: &mut String, offer: &Offer) -> Result<(), AllocError> {
    let (version, fp) = (offer.version.as_str(), offer.fp.as_str());
    write!(text, " v{version} f{fp}")?;
    push_part(alloc, text, &offer.full)?;
    match &offer.diff {
        Some(diff) => push_part(alloc, text, diff),
        None => Ok(()),
    }
}

fn push_part(alloc: Global, text: &mut String, part: &Part) -> Result<(), AllocError> {
    let hash = hex::encode(alloc, part.hash)?;
    let (codebase, name) = (part.codebase.as_str(), part.name.as_str());
    let (size, hash) = (part.size, hash.as_str());
    write!(text, " {codebase}{name} {size} {hash}")
}

// Whether the bytes of a row `WANT | MIDDLE`, the middle between front and back, are read so.
fn is_so(alloc: Global, front: &str, row: &str, back: &str) -> Option<bool> {
    let (want, middle) = row.split_once(" | ")?;
    let body = format!(in alloc; "{front}{middle}{back}").ok()?;
    let mut text = String::new(alloc);
    push_read(alloc, &mut text, body.as_str().as_bytes()).ok()?;
    Some(text.as_str() == want)
}

// Whole replies: what is read of them, or the first fault.
const FAULTS: &str = r#"K1 NoPrefix | {}
K1 NoPrefix | 
K1 NoPrefix | )]}
K1 NoPrefix |  )]}'{"response":{"protocol":"3.1"}}
K2 NotJson | )]}'x
K2 NotJson | )]}'
K2 NotJson | )]}'{"response":{"protocol":"3.1"}} x
K3 NoResponse | )]}'{}
K3 NoResponse | )]}'[]
K3 NoResponse | )]}'{"response":"3.1"}
K4 BadProtocol | )]}'{"response":{}}
K4 BadProtocol | )]}'{"response":{"app":1,"protocol":3.1}}
K4 BadProtocol | )]}'{"response":{"app":[],"protocol":"3.0"}}
0 0 | )]}'{"response":{"protocol":"3.1"}}
0 7 | )]}' {"response":{"daystart":{"elapsed_days":-1,"elapsed_seconds":7},"protocol":"3.1"}}
0 0 | )]}'{"response":{"app":[],"daystart":[],"protocol":"3.1"}}
K5 BadOffer 0 | )]}'{"response":{"app":{},"protocol":"3.1"}}
K5 BadOffer 0 | )]}'{"response":{"app":[1],"protocol":"3.1"}}
K5 BadOffer 0 | )]}'{"response":{"app":[{"appid":1,"status":"ok"}],"protocol":"3.1"}}
K5 BadOffer 1 | )]}'{"response":{"app":[{"appid":"a","status":"x"},{"appid":"b"}],"protocol":"3.1"}}
K5 BadOffer 0 | )]}'{"response":{"app":[{"appid":"a","status":"ok","updatecheck":{"status":"ok"}}],"protocol":"3.1"}}"#;

// Apps without an offer.
const APP_FRONT: &str = r#")]}'
{"response":{"protocol":"3.1","app":["#;

const APP_BACK: &str = "]}}";

const APPS: &str = r#"0 0; a unknown | {"appid":"a","status":"error-unknownApplication"}
0 0; a other; a other | {"appid":"a","status":"restricted"},{"appid":"a","status":""}
0 0; a c n false 0 | {"appid":"a","status":"ok"}
0 0; a cs:1 ns true 2 | {"appid":"a","status":"ok","cohort":"s:1","cohortname":"s","ping":{},"event":[0,1]}
0 0; a c n false 0 | {"appid":"a","status":"ok","cohort":1,"cohortname":[],"ping":true,"event":{}}
0 0; a c n false 0 noupdate | {"appid":"a","status":"ok","updatecheck":{"status":"noupdate"}}
0 0; a c n false 0 internal | {"appid":"a","status":"ok","updatecheck":{"status":"error-internal"}}
0 0; a c n false 0 another | {"appid":"a","status":"ok","updatecheck":{"status":"error-hash"}}
0 0; a c n false 0 another | {"appid":"a","status":"ok","updatecheck":{}}
0 0; a c n false 0 another | {"appid":"a","status":"ok","updatecheck":null}
0 0; a unknown | {"appid":"a","status":"error-unknownApplication","updatecheck":{"status":"ok"}}"#;

// Packages of an offer, at their limits.
const OFFER_FRONT: &str = r#")]}'
{"response":{"protocol":"3.1","app":[{"appid":"a","status":"ok","updatecheck":{"status":"ok","urls":{"url":[{"codebase":1},{"codebasediff":"d/"},{"codebase":"u/"},{"codebase":"w/"}]},"manifest":{"version":"2.0","packages":{"package":["#;

const OFFER_BACK: &str = "]}}}}]}}";

const OFFERS: &str =
    r#"0 0; a c n false 0 v2.0 f u/n 1 1111111111111111111111111111111111111111111111111111111111111111 | {"fp":"","name":"n","size":1,"hash_sha256":"1111111111111111111111111111111111111111111111111111111111111111"}
0 0; a c n false 0 v2.0 fx u/n 1099511627776 abababababababababababababababababababababababababababababababab | {"fp":"x","name":"n","size":1099511627776,"hash_sha256":"aBaBaBaBaBaBaBaBaBaBaBaBaBaBaBaBaBaBaBaBaBaBaBaBaBaBaBaBaBaBaBaB"}
K5 BadOffer 0 | {"fp":"x","name":"n","size":0,"hash_sha256":"1111111111111111111111111111111111111111111111111111111111111111"}
K5 BadOffer 0 | {"fp":"x","name":"n","size":1099511627777,"hash_sha256":"1111111111111111111111111111111111111111111111111111111111111111"}
K5 BadOffer 0 | {"fp":"x","name":"n","size":"1","hash_sha256":"1111111111111111111111111111111111111111111111111111111111111111"}
K5 BadOffer 0 | {"fp":"x","name":"n","size":1.0,"hash_sha256":"1111111111111111111111111111111111111111111111111111111111111111"}
K5 BadOffer 0 | {"fp":"x","name":"n","size":1,"hash_sha256":"11111111111111111111111111111111111111111111111111111111111111111"}
K5 BadOffer 0 | {"fp":"x","name":"n","size":1,"hash_sha256":"111111111111111111111111111111111111111111111111111111111111111111"}
K5 BadOffer 0 | {"fp":"x","name":"n","size":1,"hash_sha256":"g111111111111111111111111111111111111111111111111111111111111111"}
K5 BadOffer 0 | {"fp":"x","name":"n","size":1}
K5 BadOffer 0 | {"fp":"x","name":2,"size":1,"hash_sha256":"1111111111111111111111111111111111111111111111111111111111111111"}
K5 BadOffer 0 | {"name":"n","size":1,"hash_sha256":"1111111111111111111111111111111111111111111111111111111111111111"}
K5 BadOffer 0 | 
K5 BadOffer 0 | {"fp":"x","name":"n","size":1,"hash_sha256":"1111111111111111111111111111111111111111111111111111111111111111"},{"fp":"x","name":"n","size":1,"hash_sha256":"1111111111111111111111111111111111111111111111111111111111111111"}
0 0; a c n false 0 v2.0 fx u/n 1 1111111111111111111111111111111111111111111111111111111111111111 d/m 3 abababababababababababababababababababababababababababababababab | {"fp":"x","name":"n","size":1,"hash_sha256":"1111111111111111111111111111111111111111111111111111111111111111","namediff":"m","sizediff":3,"hashdiff_sha256":"abababababababababababababababababababababababababababababababab"}
0 0; a c n false 0 v2.0 fx u/n 1 1111111111111111111111111111111111111111111111111111111111111111 | {"fp":"x","name":"n","size":1,"hash_sha256":"1111111111111111111111111111111111111111111111111111111111111111","namediff":"m","sizediff":0}
0 0; a c n false 0 v2.0 fx u/n 1 1111111111111111111111111111111111111111111111111111111111111111 | {"fp":"x","name":"n","size":1,"hash_sha256":"1111111111111111111111111111111111111111111111111111111111111111","sizediff":3,"hashdiff_sha256":"abababababababababababababababababababababababababababababababab"}
K5 BadOffer 0 | {"fp":"x","name":"n","size":1,"hash_sha256":"1111111111111111111111111111111111111111111111111111111111111111","namediff":"m","sizediff":0,"hashdiff_sha256":"abababababababababababababababababababababababababababababababab"}
K5 BadOffer 0 | {"fp":"x","name":"n","size":1,"hash_sha256":"1111111111111111111111111111111111111111111111111111111111111111","namediff":null,"sizediff":3,"hashdiff_sha256":"abababababababababababababababababababababababababababababababab"}"#;

// No offer is read without its version.
const VERSION_FRONT: &str = r#")]}'
{"response":{"protocol":"3.1","app":[{"appid":"a","status":"ok","updatecheck":{"status":"ok","urls":{"url":[{"codebase":"u/"}]},"manifest":{"packages":{"package":[{"fp":"x","name":"n","size":1,"hash_sha256":"1111111111111111111111111111111111111111111111111111111111111111"}]}"#;

const VERSION_BACK: &str = "}}}]}}";

const VERSIONS: &str =
    r#"0 0; a c n false 0 v2.0 fx u/n 1 1111111111111111111111111111111111111111111111111111111111111111 | ,"version":"2.0"
K5 BadOffer 0 | 
K5 BadOffer 0 | ,"version":2
K5 BadOffer 0 | ,"version":2.0
K5 BadOffer 0 | ,"version":null
K5 BadOffer 0 | ,"versions":"2.0""#;

// The first address of each kind is read.
const ADDRESS_FRONT: &str = r#")]}'
{"response":{"protocol":"3.1","app":[{"appid":"a","status":"ok","updatecheck":{"status":"ok","manifest":{"version":"2.0","packages":{"package":[{"fp":"x","name":"n","size":1,"hash_sha256":"1111111111111111111111111111111111111111111111111111111111111111","namediff":"m","sizediff":3,"hashdiff_sha256":"abababababababababababababababababababababababababababababababab"}]}},"urls":{"url":["#;

const ADDRESS_BACK: &str = "]}}}]}}";

const ADDRESSES: &str =
    r#"0 0; a c n false 0 v2.0 fx u/n 1 1111111111111111111111111111111111111111111111111111111111111111 | {"codebase":"u/"}
0 0; a c n false 0 v2.0 fx u/n 1 1111111111111111111111111111111111111111111111111111111111111111 | {"codebase":"u/","codebasediff":0}
0 0; a c n false 0 v2.0 fx u/n 1 1111111111111111111111111111111111111111111111111111111111111111 d/m 3 abababababababababababababababababababababababababababababababab | {"codebasediff":"d/","codebase":"u/"}
K5 BadOffer 0 | {"codebasediff":"d/"}
K5 BadOffer 0 | {"codebase":0}
K5 BadOffer 0 | "#;

// The tables with what comes before and after the middle of each row.
const TABLES: &[(&str, &str, &str)] = &[
    (FAULTS, "", ""),
    (APPS, APP_FRONT, APP_BACK),
    (OFFERS, OFFER_FRONT, OFFER_BACK),
    (VERSIONS, VERSION_FRONT, VERSION_BACK),
    (ADDRESSES, ADDRESS_FRONT, ADDRESS_BACK),
];

// The first of rows that isn't so between front and back; empty if there is none.
fn wrong_row(alloc: Global, front: &str, rows: &'static str, back: &str) -> &'static str {
    for row in rows.lines() {
        if is_so(alloc, front, row, back) != Some(true) {
            return row;
        }
    }
    ""
}

// rule: Address in a reply
// rule: Differential in a reply
// rule: Faults of a reply
// rule: Offer that is read
// rule: Printed fault of a reply
#[test]
fn reads_replies_or_reports_their_first_fault(rt: HostRuntime) {
    for (rows, front, back) in TABLES {
        let wrong = wrong_row(rt.alloc(), front, rows, back);
        assert!(rt; wrong.is_empty(), "{wrong}");
    }
}
