// What a post and a download come to over a source and a sink in memory.

use http_memory::{Input, Output};
use std::alloc::Global;
use update_client::{Body, LinkFault, Post, open_over, parse_address, post_over};

// The most bytes that the body of the reply to a post may have.
const LIMIT: u64 = 20;

/// The request of a post of `{}`, or of a download.
pub(crate) fn request_of(kind: &str) -> &'static [u8] {
    match kind {
        "post" =>
            b"POST /service/update2/json HTTP/1.1\r\nHost: h:8080\r\nContent-Type: application/json\r\nContent-Length: 2\r\nConnection: close\r\n\r\n{}",
        _ => b"GET /p/a.bin?x=1 HTTP/1.1\r\nHost: h:8080\r\nConnection: close\r\n\r\n",
    }
}

fn name_of(fault: LinkFault) -> &'static str {
    match fault {
        LinkFault::Write => "write failed",
        LinkFault::Read => "read failed",
        LinkFault::NoHead => "no head",
        LinkFault::ManyFields => "many fields",
        LinkFault::TransferCoding => "transfer coding",
        LinkFault::TwoFramings => "two framings",
        LinkFault::NoLength => "no length",
        LinkFault::TwoLengths => "two lengths",
        LinkFault::BadLength => "bad length",
        LinkFault::BadChunk => "bad chunk",
        LinkFault::LongChunkLine => "long chunk line",
        LinkFault::BadTrailer => "bad trailer",
        LinkFault::LongTrailer => "long trailer",
        LinkFault::Ended => "ended",
        LinkFault::Long => "long",
        LinkFault::Status => "status",
        _ => "another fault",
    }
}

// What a post comes to: `whole` if its reply has this body, or its fault.
fn post(alloc: Global, source: &mut Input<'_>, sink: &mut Output, body: &[u8]) -> &'static str {
    let post = Post {
        host: "h:8080",
        path: "/service/update2/json",
        kind: "application/json",
        body: b"{}",
    };
    match post_over(alloc, source, sink, &post, LIMIT) {
        Ok(reply) if reply.body.as_slice() == body => "whole",
        Ok(_) => "another body",
        Err(fault) => name_of(fault),
    }
}

// Reads a body to its end, and on after each read that fails; returns how many fail.
fn read_on(source: &mut Input<'_>, body: &mut Body, bytes: &mut Vec<u8>) -> Option<u32> {
    let mut block = [0; 4];
    let mut failed = 0u32;
    for _ in 0..100 {
        match body.read(source, &mut block) {
            Ok(0) => return Some(failed),
            Ok(count) => bytes.extend_from_slice(&block[..count]).ok()?,
            Err(_) => failed = failed.saturating_add(1),
        }
    }
    None
}

// What a download that was opened comes to: `whole` if these bytes are handed on.
fn hand_on(alloc: Global, source: &mut Input<'_>, opened: &mut Body, body: &[u8]) -> &'static str {
    let mut bytes = Vec::new(alloc);
    match read_on(source, opened, &mut bytes) {
        Some(failed) if bytes.as_slice() == body => match failed {
            0 => "whole",
            1 => "read failed",
            _ => "failed again",
        },
        _ => "another body",
    }
}

// What a download comes to. If a read of the body fails, the rest is read afterwards.
fn download(alloc: Global, source: &mut Input<'_>, sink: &mut Output, body: &[u8]) -> &'static str {
    let Some(address) = parse_address("http://h:8080/p/a.bin?x=1") else {
        return "no address";
    };
    match open_over(alloc, source, sink, &address) {
        Ok(mut opened) => hand_on(alloc, source, &mut opened, body),
        Err(fault) => name_of(fault),
    }
}

/// What a post or a download comes to: `whole` if these are the bytes of its body, or its fault.
pub(crate) fn ask(
    alloc: Global,
    kind: &str,
    source: &mut Input<'_>,
    sink: &mut Output,
    body: &[u8],
) -> &'static str {
    match kind {
        "post" => post(alloc, source, sink, body),
        _ => download(alloc, source, sink, body),
    }
}

/// The same of one whose reply comes so many bytes a read.
pub(crate) fn read_reply(
    alloc: Global,
    kind: &str,
    reply: &[u8],
    piece: usize,
    body: &[u8],
) -> &'static str {
    let mut source = Input::new(reply, piece);
    let mut sink = Output::new(alloc, 1000);
    ask(alloc, kind, &mut source, &mut sink, body)
}
