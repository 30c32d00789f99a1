use crate::played::Played;
use crate::shelf::Shelf;
use std::alloc::{AllocError, Global};
use update_client::{Client, Fault, Walk};
use values::{ReadError, Text};

fn push_copy(alloc: Global, texts: &mut Vec<Text>, word: &str) -> Result<(), AllocError> {
    let text = Text::copy_of(alloc, if word == "-" { "" } else { word })?;
    texts.push(text)?;
    Ok(())
}

// The parts of a line, the last one first; `-` is the empty string.
fn strings_of(alloc: Global, line: &str) -> Result<Vec<Text>, AllocError> {
    let mut texts = Vec::new(alloc);
    for word in line.rsplit(' ') {
        push_copy(alloc, &mut texts, word)?;
    }
    Ok(texts)
}

fn next_of(alloc: Global, texts: &mut Vec<Text>) -> Text {
    match texts.pop() {
        Some(text) => text,
        None => Text::new(String::new(alloc)),
    }
}

/// A client of `demo`: `VERSION FP COHORT`, and then `down` if it allows a downgrade, or `pin` and its prefix.
pub(crate) fn client_of(alloc: Global, line: &str) -> Result<Client, AllocError> {
    let app = Text::copy_of(alloc, "demo")?;
    let mut texts = strings_of(alloc, line)?;
    let version = next_of(alloc, &mut texts);
    let fp = next_of(alloc, &mut texts);
    let cohort = next_of(alloc, &mut texts);
    let word = next_of(alloc, &mut texts);
    let prefix = next_of(alloc, &mut texts);
    let (hint, session) = (next_of(alloc, &mut texts), next_of(alloc, &mut texts));
    let rollback = word.as_str() == "down";
    let client = Client::new(app, version, fp, cohort, hint, rollback, session);
    if word.as_str() == "pin" {
        Ok(client.with_prefix(prefix))
    } else {
        Ok(client)
    }
}

fn push_end(text: &mut String, walked: &Result<Walk, ReadError<Fault>>) -> Result<(), AllocError> {
    match walked {
        Ok(walk) => {
            let (steps, bytes) = (walk.steps, walk.bytes);
            write!(text, "{steps} steps {bytes} bytes")
        }
        Err(ReadError::Fault(fault)) => write!(text, "{fault}"),
        Err(ReadError::Memory) => Err(AllocError),
    }
}

// The client, how many bytes are staged, the addresses and the commits.
fn push_log(
    text: &mut String,
    client: &Client,
    link: &Played<'_>,
    shelf: &Shelf,
) -> Result<(), AllocError> {
    let (version, fp, cohort) = (client.version(), client.fp(), client.cohort());
    let staged = shelf.staged.len();
    let (opened, commits) = (link.log.as_str(), shelf.log.as_str());
    write!(
        text,
        ", {version} {fp} {cohort}, {staged}, {opened}, {commits}"
    )
}

// Puts at the end what a walk comes to over a link, and an installer that fails at the call after so many.
fn push_walk(
    alloc: Global,
    text: &mut String,
    client: &mut Client,
    link: &mut Played<'_>,
    calls: u64,
) -> Result<(), AllocError> {
    let mut shelf = Shelf::new(alloc, calls);
    let walked = client.walk(alloc, link, &mut shelf, &mut [0; 4096]);
    push_end(text, &walked)?;
    push_log(text, client, link, &shelf)
}

// A number of a line, or this one if there is none.
fn number_at(words: &str, index: usize, otherwise: u64) -> u64 {
    match words.split(' ').nth(index) {
        Some(word) => word.parse().unwrap_or(otherwise),
        None => otherwise,
    }
}

// Puts at the end what a walk comes to: `START | REPLIES | BODIES | LIMITS`. The limits are the most bytes of a read, and
// after how many calls the link and the installer fail.
fn push_played(alloc: Global, text: &mut String, row: &str) -> Result<(), AllocError> {
    let (start, rest) = row.split_once(" | ").unwrap_or((row, ""));
    let (replies, rest) = rest.split_once(" | ").unwrap_or((rest, ""));
    let (bodies, limits) = rest.split_once(" | ").unwrap_or((rest, ""));
    let piece = number_at(limits, 0, 65536).min(65536) as usize;
    let calls = number_at(limits, 1, u64::MAX);
    let mut client = client_of(alloc, start)?;
    let mut link = Played::new(alloc, replies, bodies, piece, calls);
    push_walk(
        alloc,
        text,
        &mut client,
        &mut link,
        number_at(limits, 2, u64::MAX),
    )
}

// Whether the walk of a row `START | REPLIES | BODIES | LIMITS = WANT` comes to that, or begins so if that ends in `..`.
fn is_so(alloc: Global, row: &str) -> Option<bool> {
    let (given, want) = row.split_once(" = ")?;
    let mut text = String::new(alloc);
    push_played(alloc, &mut text, given).ok()?;
    Some(match want.strip_suffix("..") {
        Some(begin) => text.as_str().starts_with(begin),
        None => text.as_str() == want,
    })
}

// What is offered is installed.
const WALKS: &str =
    r#"0 - - | 1 offer s:7 1.0 a- abc;1 offer s:7 2.0 b- abcd*14 abcdefghijk;1 check noupdate | abc abcdefghijk |  = 2 steps 14 bytes, 2.0 b-0 s:7, 0, u/full.bin d/diff.bin , full 1.0 a-0 3;diff 2.0 b-0 11;
1.0 a-0 s:7 | 1 check noupdate |  |  = 0 steps 0 bytes, 1.0 a-0 s:7, 0, , 
3.0 c-0 s:7 down | 1 offer t:7 2.0 b- abc;1 check noupdate | abc |  = 1 steps 3 bytes, 2.0 b-0 t:7, 0, u/full.bin , full 2.0 b-0 3;
1.0 a-0 s:7 | 1 offer - 2.0 b- abc;1 check noupdate | abc |  = 1 steps 3 bytes, 2.0 b-0 s:7, 0, u/full.bin , full 2.0 b-0 3;
1.0 a-0 s:7 | 1 offer - 2.0 b- a*131072;1 check noupdate | a*131072 | 1 = 1 steps 131072 bytes, 2.0 b-0 s:7, 0, u/full.bin , full 2.0 b-0 131072;"#;

// Each request of a walk has the client's prefix.
const PINNED: &str =
    r#"1.0 a-0 s:7 pin 2. | 1 offer s:7 2.0 b- abc;1 offer s:7 2.1 c- abc;1 check noupdate | abc |  = 2 steps 6 bytes, 2.1 c-0 s:7, 0, pin:2. u/full.bin pin:2. u/full.bin pin:2. , full 2.0 b-0 3;full 2.1 c-0 3;
1.0 a-0 s:7 pin 1.0$ | 1 check noupdate |  |  = 0 steps 0 bytes, 1.0 a-0 s:7, 0, pin:1.0$ , 
1.0 a-0 s:7 pin - | 1 check noupdate |  |  = 0 steps 0 bytes, 1.0 a-0 s:7, 0, , "#;

// Each fault.
const FAULTS: &str = r#"1.0 a s | 1 {} |  |  = U2 Reply, 1.0 a s, 0, , 
1.0 a s | 1 )]}'x |  |  = U2 Reply, 1.0 a s, 0, , 
1.0 a s | 1 )]}'{} |  |  = U2 Reply, 1.0 a s, 0, , 
1.0 a s | 1 )]}'{"response":{}} |  |  = U2 Reply, 1.0 a s, 0, , 
1.0 a s | 1 )]}'{"response":{"protocol":"3.1","app":{}}} |  |  = U2 Reply, 1.0 a s, 0, , 
1.0 a s | 1 )]}'{"response":{"protocol":"3.1"}} |  |  = U2 Reply, 1.0 a s, 0, , 
1.0 a s | 1 )]}'{"response":{"protocol":"3.1","app":[{"appid":"demo","status":"error-unknownApplication"}]}} |  |  = U2 Reply, 1.0 a s, 0, , 
1.0 a s | 1 )]}'{"response":{"protocol":"3.1","app":[{"appid":"demo","status":"ok"}]}} |  |  = U2 Reply, 1.0 a s, 0, , 
1.0 a s | 1 )]}'{"response":{"protocol":"3.1","app":[{"appid":"demos","status":"ok","updatecheck":{"status":"noupdate"}}]}} |  |  = U2 Reply, 1.0 a s, 0, , 
1.0 a s | 1 )]}'{"response":{"protocol":"3.1","app":[{"appid":"demo","status":"ok","updatecheck":{"status":"noupdate"}},{"appid":"demo","status":"ok","updatecheck":{"status":"noupdate"}}]}} |  |  = U2 Reply, 1.0 a s, 0, , 
1.0 a s | 1 check error-hash |  |  = U2 Reply, 1.0 a s, 0, , 
1.0 a s | 1 check error-internal |  |  = U8 Busy, 1.0 a s, 0, , 
1.0 a-0 s | 1 offer t 2.0 a- abc | abc |  = U6 NoProgress, 1.0 a-0 s, 0, , 
1.0 a s | 1 offer t 2.0 b- abc | ab |  = U3 BadLength, 1.0 a s, 0, u/full.bin , 
1.0 a s | 1 offer t 2.0 b- abc |  |  = U3 BadLength, 1.0 a s, 0, u/full.bin , 
1.0 a s | 1 offer t 2.0 b- abc | abcd |  = U3 BadLength, 1.0 a s, 0, u/full.bin , 
1.0 a s | 1 offer t 2.0 b- abc | abcd | 1 = U3 BadLength, 1.0 a s, 0, u/full.bin , 
1.0 a s | 1 offer t 2.0 b- abc | a* |  = U3 BadLength, 1.0 a s, 0, u/full.bin , 
1.0 a s | 1 offer t 2.0 b- abc | abd |  = U4 BadHash, 1.0 a s, 0, u/full.bin , 
1.0 a s | 1 offer t 2.0 b- abc ab | abc |  = U3 BadLength, 1.0 a s, 0, d/diff.bin , 
1.0 a s | 1 offer t 2.0 b- abc;1 offer t 3.0 c- abc | abc abd |  = U4 BadHash, 2.0 b-0 t, 0, u/full.bin u/full.bin , full 2.0 b-0 3;
1.0 a s | 1 offer t 2.0 b- abc;1 check error-internal | abc |  = U8 Busy, 2.0 b-0 t, 0, u/full.bin , full 2.0 b-0 3;"#;

// Each call of the link fails in turn, and then each of the installer: the last commit is kept.
const FAILED_CALLS: &str =
    r#"1.0 a s | 1 offer t 2.0 b- abc;1 offer t 3.0 c- abcde abcd;1 check noupdate | abc abcd | - 0 = U1 Link, 1.0 a s, 0, , 
1.0 a s | 1 offer t 2.0 b- abc;1 offer t 3.0 c- abcde abcd;1 check noupdate | abc abcd | - 1 = U1 Link, 1.0 a s, 0, u/full.bin , 
1.0 a s | 1 offer t 2.0 b- abc;1 offer t 3.0 c- abcde abcd;1 check noupdate | abc abcd | - 2 = U1 Link, 1.0 a s, 0, u/full.bin , 
1.0 a s | 1 offer t 2.0 b- abc;1 offer t 3.0 c- abcde abcd;1 check noupdate | abc abcd | - 3 = U1 Link, 1.0 a s, 0, u/full.bin , 
1.0 a s | 1 offer t 2.0 b- abc;1 offer t 3.0 c- abcde abcd;1 check noupdate | abc abcd | - 4 = U1 Link, 2.0 b-0 t, 0, u/full.bin , full 2.0 b-0 3;
1.0 a s | 1 offer t 2.0 b- abc;1 offer t 3.0 c- abcde abcd;1 check noupdate | abc abcd | - 5 = U1 Link, 2.0 b-0 t, 0, u/full.bin d/diff.bin , full 2.0 b-0 3;
1.0 a s | 1 offer t 2.0 b- abc;1 offer t 3.0 c- abcde abcd;1 check noupdate | abc abcd | - 6 = U1 Link, 2.0 b-0 t, 0, u/full.bin d/diff.bin , full 2.0 b-0 3;
1.0 a s | 1 offer t 2.0 b- abc;1 offer t 3.0 c- abcde abcd;1 check noupdate | abc abcd | - 7 = U1 Link, 2.0 b-0 t, 0, u/full.bin d/diff.bin , full 2.0 b-0 3;
1.0 a s | 1 offer t 2.0 b- abc;1 offer t 3.0 c- abcde abcd;1 check noupdate | abc abcd | - 8 = U1 Link, 3.0 c-0 t, 0, u/full.bin d/diff.bin , full 2.0 b-0 3;diff 3.0 c-0 4;
1.0 a s | 1 offer t 2.0 b- abc;1 offer t 3.0 c- abcde abcd;1 check noupdate | abc abcd | - 9 = 2 steps 7 bytes, 3.0 c-0 t, 0, u/full.bin d/diff.bin , full 2.0 b-0 3;diff 3.0 c-0 4;
1.0 a s | 1 offer t 2.0 b- abc;1 offer t 3.0 c- abcde abcd;1 check noupdate | abc abcd | - - 0 = U5 Install, 1.0 a s, 0, u/full.bin , 
1.0 a s | 1 offer t 2.0 b- abc;1 offer t 3.0 c- abcde abcd;1 check noupdate | abc abcd | - - 1 = U5 Install, 1.0 a s, 0, u/full.bin , 
1.0 a s | 1 offer t 2.0 b- abc;1 offer t 3.0 c- abcde abcd;1 check noupdate | abc abcd | - - 2 = U5 Install, 2.0 b-0 t, 0, u/full.bin d/diff.bin , full 2.0 b-0 3;
1.0 a s | 1 offer t 2.0 b- abc;1 offer t 3.0 c- abcde abcd;1 check noupdate | abc abcd | - - 3 = U5 Install, 2.0 b-0 t, 0, u/full.bin d/diff.bin , full 2.0 b-0 3;"#;

// As many steps as a walk may make, and one more.
const LONG: &str =
    "1.0 a s | 1024 offer t 2.0 b- abc;1 check noupdate | abc |  = 1024 steps 3072 bytes, 2.0 b-0 t,..
1.0 a s | 1025 offer t 2.0 b- abc;1 check noupdate | abc |  = U7 TooManySteps, 2.0 b-1 t,..";

// rule: Address of a download
// rule: Client after a step
// rule: Download that is installed
// rule: Printed fault of a client
// rule: Reply that a client hears
// rule: Request of a client
// rule: Steps of a walk
// rule: Walk of a client
#[test]
fn walks_as_far_as_it_can(rt: HostRuntime) {
    for rows in [WALKS, PINNED, FAULTS, FAILED_CALLS, LONG] {
        for row in rows.lines() {
            assert!(rt; is_so(rt.alloc(), row) == Some(true), "{row}");
        }
    }
}
