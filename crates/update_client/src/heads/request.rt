ghost use Rattle.std.specs.Prelude.{◌≡◌, IfOk, string_bytes};
ghost use Rattle.update_client.specs.Requests.{get_lines, get_request, post_lines, post_request};

use crate::heads::address::Address;
use std::alloc::{AllocError, Global};

// The head of a download's request.
#[tactic(auto, unfolding(crate::specs::Requests::get_lines))]
fn get_head(alloc: Global, authority: &str, path: &str) -> Result<String, AllocError>
    ensures { IfOk result (λ text. string_bytes text ≡ get_lines authority.now path.now) }
{
    format!(in alloc; "GET /{path} HTTP/1.1\r\nHost: {authority}\r\nConnection: close\r\n\r\n")
}

// The head of a post's request, with a body of so many bytes.
#[tactic(auto, unfolding(crate::specs::Requests::post_lines))]
fn post_head(
    alloc: Global,
    host: &str,
    path: &str,
    kind: &str,
    size: usize,
) -> Result<String, AllocError>
    ensures { IfOk result (λ text. string_bytes text ≡ post_lines host.now path.now kind.now size) }
{
    format!(in alloc;
        "POST {path} HTTP/1.1\r\nHost: {host}\r\nContent-Type: {kind}\r\nContent-Length: {size}\r\nConnection: close\r\n\r\n"
    )
}

/// What is posted, and where. No string of it is checked.
#[derive(Clone, Copy, Drop)]
pub struct Post<'a> {
    /// The host, and perhaps its port.
    pub host: &'a str,
    /// The path, with its first slash.
    pub path: &'a str,
    /// The media type of the body (RFC 9110, section 8.3).
    pub kind: &'a str,
    /// The body.
    pub body: &'a [u8],
}

/// Returns the request of a download.
pub fn get_request(alloc: Global, address: &Address<'_>) -> Result<Vec<u8>, AllocError>
    ensures { IfOk result (λ text. text.items ≡ get_request address.now) }
{
    let text = get_head(alloc, address.authority, address.path)?;
    Ok(text.into_bytes())
}

// rule: Request of a post
/// Returns the request of a post, its body included.
pub fn post_request(alloc: Global, post: &Post<'_>) -> Result<Vec<u8>, AllocError>
    ensures { IfOk result (λ text. text.items ≡ post_request post.now) }
{
    let size = post.body.len();
    let mut text = post_head(alloc, post.host, post.path, post.kind, size)?.into_bytes();
    text.extend_from_slice(post.body)?;
    Ok(text)
}
