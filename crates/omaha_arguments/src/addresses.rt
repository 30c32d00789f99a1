// Which addresses only this machine reaches.

ghost use Rattle.std.specs.Prelude.{◌≡◌, ◌<◌, ◌==◌};
ghost use Rattle.std.specs.List.{after_first, before_first};
ghost use Rattle.omaha_arguments.specs.ServeArguments.{are_three_octets, has_known_port, has_leading_zero, is_local, is_loopback, is_loopback_host, is_octet, is_path};

use crate::options::number_of;

/// Whether the port of an address is known: the system doesn't choose it.
pub(crate) fn has_known_port(address: &str) -> bool
    ensures { result ≡ has_known_port address.now }
{
    !address.as_bytes().ends_with(b":0")
}

// The strings before and after the first such character, or all and nothing.
fn split_at(text: &str, mark: char) -> (&str, &str)
    requires { mark < 128 }
    ensures before { result.0.now ≡ before_first (λ byte. byte == mark) text.now }
    ensures after { result.1.now ≡ after_first (λ byte. byte == mark) text.now }
{
    match text.split_once(mark) {
        Some(parts) => parts,
        None => (text, ""),
    }
}

// Whether a string of digits has a zero before them.
fn has_leading_zero(text: &str) -> bool
    ensures { result ≡ has_leading_zero text.now }
{
    text.len() > 1 && text.as_bytes()[0] == b'0'
}

// Whether a string is a decimal number below 256 without leading zeros.
#[tactic(auto, unfolding(crate::specs::ServeArguments::is_octet))]
fn is_octet(text: &str) -> bool
    ensures { result ≡ is_octet text.now }
{
    match number_of(text) {
        Some(number) => number < 256 && !has_leading_zero(text),
        None => false,
    }
}

// Whether a string is three such numbers, with dots between them.
#[tactic(auto, unfolding(crate::specs::ServeArguments::are_three_octets))]
fn are_three_octets(text: &str) -> bool
    ensures { result ≡ are_three_octets text.now }
{
    let (first, rest) = split_at(text, '.');
    let (second, third) = split_at(rest, '.');
    is_octet(first) && is_octet(second) && is_octet(third)
}

// Whether a host is of 127.0.0.0/8.
#[tactic(auto, unfolding(crate::specs::ServeArguments::is_loopback_host))]
fn is_loopback_host(host: &str) -> bool
    ensures { result ≡ is_loopback_host host.now }
{
    let (network, rest) = split_at(host, '.');
    network == "127" && are_three_octets(rest)
}

// Whether an address is of the loopback, by its digits: no name is looked up.
fn is_loopback(address: &str) -> bool
    ensures { result ≡ is_loopback address.now }
{
    if address.as_bytes().starts_with(b"[::1]:") {
        return true;
    }
    let (host, _) = split_at(address, ':');
    is_loopback_host(host)
}

// Whether an address is a path in the file system.
fn is_path(address: &str) -> bool
    ensures { result ≡ is_path address.now }
{
    address.as_bytes().starts_with(b"unix:")
}

/// Whether only this machine reaches an address.
pub(crate) fn is_local(address: &str) -> bool
    ensures { result ≡ is_local address.now }
{
    is_path(address) || is_loopback(address)
}
