ghost use Rattle.std.specs.Prelude.{◌≡◌, ◌<◌, Option, MatchOption, None, Some};
ghost use Rattle.std.specs.List.{list_all};
ghost use Rattle.update_client.specs.Addresses.{address_in, is_host_byte, is_literal, is_literal_byte, is_name, is_path, is_path_byte, literal_by, named_by, parts_after, parts_at, parts_by, parts_of, place_at, place_in, port_after, port_in, split_at};

use crate::heads::length::read_length;

/// The address of a download.
#[derive(Clone, Copy, Drop)]
pub struct Address<'a> {
    /// The host, and the port if it is written; an IPv6 address is in brackets.
    pub authority: &'a str,
    /// The name or the IP address of the host, without brackets.
    pub host: &'a str,
    /// The port; 80 if none is written.
    pub port: u16,
    /// What follows the slash after the authority.
    pub path: &'a str,
}

// The port of an address that doesn't write one.
const DEFAULT_PORT: u16 = 80;

fn is_host_byte(byte: u8) -> bool
    ensures { result ≡ is_host_byte byte }
{
    byte.is_ascii_alphanumeric() || byte == b'-' || byte == b'.' || byte == b'_'
}

fn is_literal_byte(byte: u8) -> bool
    ensures { result ≡ is_literal_byte byte }
{
    byte.is_ascii_hexdigit() || byte == b':' || byte == b'.'
}

fn is_path_byte(byte: u8) -> bool
    ensures { result ≡ is_path_byte byte }
{
    b' ' < byte && byte < 127 && byte != b'#'
}

fn are_host_bytes(bytes: &[u8]) -> bool
    ensures { result ≡ list_all is_host_byte bytes.now }
{
    bytes.iter().all(|byte| is_host_byte(*byte))
}

fn are_literal_bytes(bytes: &[u8]) -> bool
    ensures { result ≡ list_all is_literal_byte bytes.now }
{
    bytes.iter().all(|byte| is_literal_byte(*byte))
}

fn is_name(host: &str) -> bool
    ensures { result ≡ is_name host.now }
{
    !host.is_empty() && are_host_bytes(host.as_bytes())
}

fn is_literal(host: &str) -> bool
    ensures { result ≡ is_literal host.now }
{
    !host.is_empty() && are_literal_bytes(host.as_bytes())
}

fn is_path(path: &str) -> bool
    ensures { result ≡ is_path path.now }
{
    path.as_bytes().iter().all(|byte| is_path_byte(*byte))
}

// The strings before and after the first such character, if there is one.
fn split_at(text: &str, mark: char) -> Option<(&str, &str)>
    requires { mark < 128 }
    ensures { MatchOption result (split_at mark text.now ≡ None)
        (λ parts. split_at mark text.now ≡ Some (parts.0.now, parts.1.now)) }
{
    text.split_once(mark)
}

// A number of decimal digits below 65536.
fn read_port(text: &str) -> Option<u16>
    ensures { result ≡ port_in text.now }
{
    match read_length(text.as_bytes()) {
        Ok(number) if number <= 65_535 => Some(number as u16),
        _ => None,
    }
}

// The port that follows a bracket.
fn port_after(rest: &str) -> Option<u16>
    ensures { result ≡ port_after rest.now }
{
    if rest.is_empty() {
        return Some(DEFAULT_PORT);
    }
    match split_at(rest, ':') {
        Some((gap, digits)) if gap.is_empty() => read_port(digits),
        _ => None,
    }
}

// The host with that port, if both are valid.
fn place_at(valid: bool, host: &str, port: Option<u16>) -> Option<(&str, u16)>
    ensures { MatchOption result (place_at valid host.now port ≡ None)
        (λ place. place_at valid host.now port ≡ Some (place.0.now, place.1)) }
{
    match port {
        Some(port) if valid => Some((host, port)),
        _ => None,
    }
}

// The host and the port of an authority without brackets.
fn named_in(text: &str) -> Option<(&str, u16)>
    ensures { MatchOption result (named_by text.now (split_at 58 text.now) ≡ None)
        (λ place. named_by text.now (split_at 58 text.now) ≡ Some (place.0.now, place.1)) }
{
    match split_at(text, ':') {
        Some((host, digits)) => place_at(is_name(host), host, read_port(digits)),
        None => place_at(is_name(text), text, Some(DEFAULT_PORT)),
    }
}

// The host and the port of an authority after its first bracket.
fn literal_in(inner: &str) -> Option<(&str, u16)>
    ensures { MatchOption result (literal_by (split_at 93 inner.now) ≡ None)
        (λ place. literal_by (split_at 93 inner.now) ≡ Some (place.0.now, place.1)) }
{
    match split_at(inner, ']') {
        Some((host, rest)) => place_at(is_literal(host), host, port_after(rest)),
        None => None,
    }
}

// The host and the port that an authority names.
#[tactic(auto, unfolding(crate::specs::Addresses::place_in))]
fn place_in(authority: &str) -> Option<(&str, u16)>
    ensures { MatchOption result (place_in authority.now ≡ None)
        (λ place. place_in authority.now ≡ Some (place.0.now, place.1)) }
{
    match split_at(authority, '[') {
        None => named_in(authority),
        Some((before, inner)) if before.is_empty() => literal_in(inner),
        Some(_) => None,
    }
}

// The address of these parts, if they are valid.
fn address_at<'a>(
    authority: &'a str,
    path: &'a str,
    host: &'a str,
    port: u16,
) -> Option<Address<'a>>
    ensures { MatchOption result (parts_at authority.now path.now (Some (host.now, port)) ≡ None)
        (λ address. parts_at authority.now path.now (Some (host.now, port)) ≡ Some (parts_of address)) }
{
    if is_path(path) {
        Some(Address {
            authority,
            host,
            port,
            path,
        })
    } else {
        None
    }
}

// The address, by what follows its second slash.
fn after_slashes(rest: &str) -> Option<Address<'_>>
    ensures { MatchOption result (parts_by (split_at 47 rest.now) ≡ None)
        (λ address. parts_by (split_at 47 rest.now) ≡ Some (parts_of address)) }
{
    match split_at(rest, '/') {
        Some((authority, path)) => match place_in(authority) {
            Some((host, port)) => address_at(authority, path, host, port),
            None => None,
        },
        None => None,
    }
}

// The address, by what follows its first slash.
fn after_scheme(rest: &str) -> Option<Address<'_>>
    ensures { MatchOption result (parts_after (split_at 47 rest.now) ≡ None)
        (λ address. parts_after (split_at 47 rest.now) ≡ Some (parts_of address)) }
{
    match split_at(rest, '/') {
        Some((gap, rest)) if gap.is_empty() => after_slashes(rest),
        _ => None,
    }
}

// rule: Parts of an address
/// Returns the parts of an address `http://HOST/PATH` or `http://HOST:PORT/PATH`.
///
/// The host is a name, an IPv4 address, or an IPv6 address in brackets; the path is visible ASCII. Returns
/// `None` for another scheme, user information, a fragment, a port of 65536 or more, and any other string.
#[tactic(auto, unfolding(crate::specs::Addresses::address_in))]
pub fn parse_address(text: &str) -> Option<Address<'_>>
    ensures { MatchOption result (address_in text.now ≡ None)
        (λ address. address_in text.now ≡ Some (parts_of address)) }
{
    match split_at(text, '/') {
        Some((scheme, rest)) if scheme == "http:" => after_scheme(rest),
        _ => None,
    }
}
