// A desk, and the files of its packages.

ghost use Rattle.std.specs.Prelude.{codes};
ghost use Rattle.http_desks.specs.Calls.{Call};

use http_desks::{Answer, Declared, Desk, DeskStatus, Off, Page, PageKind};
use http_memory::{Content, File, Shelf};
use std::alloc::{AllocError, Global};

// The SHA-256 of `abc`, as FIPS 180 has it.
const ABC: [u8; 32] = [
    0xba, 0x78, 0x16, 0xbf, 0x8f, 0x01, 0xcf, 0xea, 0x41, 0x41, 0x40, 0xde, 0x5d, 0xae, 0x22, 0x23,
    0xb0, 0x03, 0x61, 0xa3, 0x96, 0x17, 0x7a, 0x9c, 0xb4, 0x10, 0xff, 0x61, 0xf2, 0x00, 0x15, 0xad,
];

// The SHA-256 of no bytes, as FIPS 180 has it.
const NOTHING: [u8; 32] = [
    0xe3, 0xb0, 0xc4, 0x42, 0x98, 0xfc, 0x1c, 0x14, 0x9a, 0xfb, 0xf4, 0xc8, 0x99, 0x6f, 0xb9, 0x24,
    0x27, 0xae, 0x41, 0xe4, 0x64, 0x9b, 0x93, 0x4c, 0xa4, 0x95, 0x99, 0x1b, 0x78, 0x52, 0xb8, 0x55,
];

// The SHA-256 of 131073 bytes `a`, as sha256sum prints it.
const LONG: [u8; 32] = [
    0x7e, 0x00, 0x9e, 0xa4, 0xef, 0x88, 0x2e, 0x38, 0x5b, 0x3c, 0x0b, 0xcb, 0xbf, 0xa8, 0xd0, 0x09,
    0xbb, 0x0a, 0x63, 0x3b, 0xdd, 0x76, 0x44, 0x15, 0xc0, 0x91, 0x82, 0xee, 0x0e, 0x75, 0xda, 0x73,
];

// The SHA-256 of 131072 bytes `b`, as sha256sum prints it.
const EVEN: [u8; 32] = [
    0x58, 0xef, 0x9a, 0x3f, 0xab, 0x7a, 0x3e, 0x76, 0x9d, 0x1b, 0x03, 0xb9, 0x65, 0x73, 0x17, 0xf4,
    0x50, 0x9d, 0xbf, 0xc3, 0xad, 0x36, 0x96, 0xa6, 0xa2, 0x01, 0x58, 0x33, 0x70, 0x63, 0x9e, 0x59,
];

// The SHA-256 of 200000 bytes `a`, as sha256sum prints it.
const LETTERS: [u8; 32] = [
    0x22, 0x87, 0xd2, 0x07, 0xf2, 0x4a, 0x94, 0x1f, 0xf3, 0xb5, 0x6c, 0x04, 0xc8, 0xa2, 0x5a, 0xd5,
    0x6b, 0x63, 0xe3, 0x02, 0x32, 0x07, 0xb3, 0xbb, 0x5b, 0x4a, 0xc0, 0xc9, 0x86, 0x9d, 0x74, 0xbe,
];

const EMPTY_REPLY: &[u8] =
    b")]}'\n{\"response\":{\"app\":[],\"daystart\":{\"elapsed_days\":0,\"elapsed_seconds\":0},\"protocol\":\"3.1\"}}";

// Bodies, and the statuses and the bodies of their replies.
const REPLIES: [(&[u8], DeskStatus, &[u8]); 4] = [
    (b"{", DeskStatus::BadRequest, b""),
    (b"base", DeskStatus::Conflict, b"stale 2\n"),
    (b"fault", DeskStatus::UnprocessableContent, b"refused 0\n"),
    (
        b"{\"request\":{\"protocol\":\"3.1\"}}",
        DeskStatus::Success,
        EMPTY_REPLY,
    ),
];

// The status and the body of the reply to a body; what isn't known is echoed.
fn reply_to(body: &[u8]) -> (DeskStatus, &[u8]) {
    for (known, status, reply) in &REPLIES {
        if *known == body {
            return (*status, reply);
        }
    }
    (DeskStatus::Success, body)
}

// Paths, and the types and the bodies of their pages.
const PAGES: [(&[u8], PageKind, &[u8]); 3] = [
    (b"/page", PageKind::Plain, b"one"),
    (b"/metrics", PageKind::Metrics, b"two"),
    (b"/html", PageKind::Html, b"three"),
];

// The type and the body of the page at a path.
fn page_at(path: &[u8]) -> Option<(PageKind, &'static [u8])> {
    for (known, kind, body) in &PAGES {
        if *known == path {
            return Some((*kind, body));
        }
    }
    None
}

// The names of packages, and what is declared of them.
const PACKAGES: [(&[u8], u64, [u8; 32]); 7] = [
    (b"letters.bin", 200_000, LETTERS),
    (b"empty.bin", 0, NOTHING),
    (b"long.bin", 131_073, LONG),
    (b"even.bin", 131_072, EVEN),
    (b"other.bin", 131_073, LONG),
    (b"torn.bin", 131_073, LONG),
    (b"grown.bin", 131_073, LONG),
];

// What is declared of a package: those that aren't named above are `abc`.
fn declared_of(name: &[u8]) -> Declared {
    for (known, size, hash) in &PACKAGES {
        if *known == name {
            return Declared {
                size: *size,
                hash: *hash,
            };
        }
    }
    Declared { size: 3, hash: ABC }
}

// The body of a reply: this one, or the timestamp, if the message asks for it.
fn body_of(alloc: Global, reply: &[u8], seconds: u64) -> Result<Vec<u8>, AllocError> {
    if reply == b"second".as_slice() {
        return Ok(format!(in alloc; "{seconds}")?.into_bytes());
    }
    Vec::from_slice(alloc, reply)
}

/// Replies to some bodies with a status, to `second` with the timestamp at which it was asked, and to others with the
/// body. Each package is known but `none.bin`. It shows three pages.
#[derive(Drop)]
pub(crate) struct Echo {
    pub(crate) alloc: Global,
}

impl Desk for Echo {
    ghost path = { λ _. codes "/echo" };

    ghost content_type = { λ _. codes "text/plain" };

    ghost steps = { λ _ _ _. Unit {0} };

    fn path(&self) -> &str {
        "/echo"
    }

    fn content_type(&self) -> &str {
        "text/plain"
    }

    fn answer(&mut self, body: &[u8], seconds: u64) -> Result<Answer, Off> {
        if body == b"closed".as_slice() {
            return Err(Off::Closed);
        }
        let (status, reply) = reply_to(body);
        match body_of(self.alloc, reply, seconds) {
            Ok(reply) if body != b"memory".as_slice() => Ok(Answer {
                status,
                body: reply,
            }),
            _ => Err(Off::Memory),
        }
    }

    fn package(&mut self, name: &[u8]) -> Option<Declared> {
        if name == b"none.bin".as_slice() {
            return None;
        }
        Some(declared_of(name))
    }

    fn page(&mut self, at: &[u8]) -> Result<Option<Page>, Off> {
        if at == b"/memory".as_slice() {
            return Err(Off::Memory);
        }
        let Some((kind, body)) = page_at(at) else {
            return Ok(None);
        };
        match Vec::from_slice(self.alloc, body) {
            Ok(body) => Ok(Some(Page { kind, body })),
            Err(_) => Err(Off::Memory),
        }
    }
}

/// The files: `changed.bin`, `cut.bin` and `other.bin` have other bytes than declared, `short.bin` is short, of
/// `torn.bin` the end can't be read, and `grown.bin` has a byte more.
pub(crate) const FILES: Shelf<'static> = Shelf {
    files: &[
        File {
            name: b"mini-1.0.bin",
            content: Content::Bytes(b"abc"),
            readable: 3,
        },
        File {
            name: b"a",
            content: Content::Bytes(b"abc"),
            readable: 3,
        },
        File {
            name: b"changed.bin",
            content: Content::Bytes(b"abd"),
            readable: 3,
        },
        File {
            name: b"short.bin",
            content: Content::Bytes(b"ab"),
            readable: 2,
        },
        File {
            name: b"a.bin",
            content: Content::Bytes(b"abc"),
            readable: 3,
        },
        File {
            name: b"cut.bin",
            content: Content::Bytes(b"xbc"),
            readable: 3,
        },
        File {
            name: b"empty.bin",
            content: Content::Bytes(b""),
            readable: 0,
        },
        File {
            name: b"long.bin",
            content: Content::Repeated(b'a', 131_073),
            readable: 131_073,
        },
        File {
            name: b"even.bin",
            content: Content::Repeated(b'b', 131_072),
            readable: 131_072,
        },
        File {
            name: b"other.bin",
            content: Content::Repeated(b'c', 131_073),
            readable: 131_073,
        },
        File {
            name: b"torn.bin",
            content: Content::Repeated(b'a', 131_073),
            readable: 70_000,
        },
        File {
            name: b"grown.bin",
            content: Content::Repeated(b'a', 131_074),
            readable: 131_074,
        },
    ],
};

/// A file of so many letters `a`, of which so many can be read.
pub(crate) fn letters<'a>(name: &'a [u8], size: u64, readable: u64) -> File<'a> {
    File {
        name,
        content: Content::Repeated(b'a', size),
        readable,
    }
}
