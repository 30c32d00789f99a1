// The replies of a server, each from a line.

use crate::body::body_and_times;
use sha2::{Digest, Sha256};
use std::alloc::{AllocError, Global};

/// The replies that are left, parts separated by `;`.
#[derive(Drop)]
pub(crate) struct Replies<'a> {
    rest: &'a str,
    line: &'a str,
    times: u64,
}

// What comes before the first separator, and what comes after it.
fn cut<'a>(text: &'a str, separator: char) -> (&'a str, &'a str) {
    match text.split_once(separator) {
        Some(parts) => parts,
        None => (text, ""),
    }
}

fn hash_of(alloc: Global, text: &str, times: u64) -> Result<String, AllocError> {
    let mut hasher = Sha256::new();
    for _ in 0..times.min(1 << 20) {
        hasher.update(text.as_bytes());
    }
    hex::encode(alloc, hasher.finalize())
}

// The members of a file of such a body: its name, its length and its SHA-256.
fn push_file(
    alloc: Global,
    reply: &mut String,
    name: &str,
    word: &str,
    end: &str,
) -> Result<(), AllocError> {
    let (text, times) = body_and_times(word);
    let hash = hash_of(alloc, text, times)?;
    let (hash, size) = (hash.as_str(), times.saturating_mul(text.len() as u64));
    write!(
        reply,
        r#""name{end}":"{name}","size{end}":{size},"hash{end}_sha256":"{hash}""#
    )
}

fn push_files(alloc: Global, reply: &mut String, words: &str) -> Result<(), AllocError> {
    let (full, diff) = cut(words, ' ');
    push_file(alloc, reply, "full.bin", full, "")?;
    if diff.is_empty() {
        return Ok(());
    }
    reply.push_str(",")?;
    push_file(alloc, reply, "diff.bin", diff, "diff")
}

// What comes before the update check of a reply for `DEMO` with a cohort text.
fn push_front(reply: &mut String, cohort: &str) -> Result<(), AllocError> {
    write!(
        reply,
        r#")]}}'{{"response":{{"protocol":"3.1","app":[{{"appid":"DEMO","status":"ok","cohort":"{cohort}","updatecheck":"#
    )
}

// The reply with an offer `COHORT VERSION FP FULL [DIFF]`: its version, its fingerprint with the count, a full package and
// perhaps a differential.
fn push_offered(
    alloc: Global,
    reply: &mut String,
    words: &str,
    count: u64,
) -> Result<(), AllocError> {
    let (cohort, words) = cut(words, ' ');
    let (version, words) = cut(words, ' ');
    let (fp, words) = cut(words, ' ');
    push_front(reply, if cohort == "-" { "" } else { cohort })?;
    write!(
        reply,
        r#"{{"status":"ok","urls":{{"url":[{{"codebase":"u/"}},{{"codebasediff":"d/"}}]}},"manifest":{{"version":"{version}","packages":{{"package":[{{"fp":"{fp}{count}","#
    )?;
    push_files(alloc, reply, words)?;
    reply.push_str("}]}}}}]}}")
}

// The reply with such a status of the update check.
fn push_status(reply: &mut String, status: &str) -> Result<(), AllocError> {
    push_front(reply, "")?;
    write!(reply, r#"{{"status":"{status}"}}}}]}}}}"#)
}

// The bytes of a line: `offer COHORT VERSION FP FULL [DIFF]`, `check STATUS`, or any other bytes.
fn push_reply(alloc: Global, reply: &mut String, line: &str, count: u64) -> Result<(), AllocError> {
    let (verb, words) = cut(line, ' ');
    match verb {
        "offer" => push_offered(alloc, reply, words, count),
        "check" => push_status(reply, words),
        _ => reply.push_str(line),
    }
}

impl<'a> Replies<'a> {
    /// The replies of a row: parts `TIMES LINE`, separated by `;`.
    pub(crate) fn new(parts: &'a str) -> Replies<'a> {
        Replies {
            rest: parts,
            line: "",
            times: 0,
        }
    }

    /// The next reply; the fingerprint of an offer ends with how often its line still comes.
    pub(crate) fn next(&mut self, alloc: Global) -> Result<String, AllocError> {
        if self.times == 0 {
            let (part, rest) = cut(self.rest, ';');
            let (times, line) = cut(part, ' ');
            self.rest = rest;
            self.line = line;
            self.times = times.parse().unwrap_or(1).max(1);
        }
        self.times -= 1;
        let mut reply = String::new(alloc);
        push_reply(alloc, &mut reply, self.line, self.times)?;
        Ok(reply)
    }
}
