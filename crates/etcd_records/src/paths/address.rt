// The addresses of etcd's servers.

ghost use Rattle.std.specs.Prelude.{◌≡◌, ◌<◌, MatchOption, None, Some, length};
ghost use Rattle.std.specs.List.{list_all};
ghost use Rattle.etcd_records.specs.Paths.{is_address, is_bracketed, is_host_byte, is_literal, is_literal_byte, is_name, is_named, is_port, is_port_after, is_place, split_at};

fn is_host_byte(byte: u8) -> bool
    ensures { result ≡ is_host_byte byte }
{
    byte.is_ascii_alphanumeric() || byte == b'-' || byte == b'.'
}

fn is_literal_byte(byte: u8) -> bool
    ensures { result ≡ is_literal_byte byte }
{
    byte.is_ascii_hexdigit() || byte == b':' || byte == b'.'
}

fn are_host_bytes(bytes: &[u8]) -> bool
    ensures { result ≡ list_all is_host_byte bytes.now }
{
    bytes.iter().all(|byte| is_host_byte(*byte))
}

fn are_literal_bytes(bytes: &[u8]) -> bool
    ensures { result ≡ list_all is_literal_byte bytes.now }
{
    bytes.iter().all(|byte| is_literal_byte(*byte))
}

fn is_name(host: &str) -> bool
    ensures { result ≡ is_name host.now }
{
    !host.is_empty() && are_host_bytes(host.as_bytes())
}

fn is_literal(host: &str) -> bool
    ensures { result ≡ is_literal host.now }
{
    !host.is_empty() && are_literal_bytes(host.as_bytes())
}

// Whether decimal digits write a number from 1 to 65535.
fn is_port_number(digits: &[u8]) -> bool
    ensures { result ≡ is_port digits.now }
{
    let mut number: u32 = 0;
    for digit in digits {
        if !digit.is_ascii_digit() {
            return false;
        }
        number = (number * 10 + u32::from(*digit - b'0')).min(65_536);
    }
    0 < number && number < 65_536
}

fn is_port(digits: &str) -> bool
    ensures { result ≡ is_port digits.now }
{
    is_port_number(digits.as_bytes())
}

/// The strings before and after the first such character, if there is one.
pub(crate) fn split_at(text: &str, mark: char) -> Option<(&str, &str)>
    requires { mark < 128 }
    ensures { MatchOption result (split_at mark text.now ≡ None)
        (λ parts. split_at mark text.now ≡ Some (parts.0.now, parts.1.now)) }
{
    text.split_once(mark)
}

fn is_named(text: &str) -> bool
    ensures { result ≡ is_named (split_at 58 text.now) }
{
    match split_at(text, ':') {
        Some((host, port)) => is_name(host) && is_port(port),
        None => false,
    }
}

fn is_port_after(rest: &str) -> bool
    ensures { result ≡ is_port_after (split_at 58 rest.now) }
{
    match split_at(rest, ':') {
        Some((gap, port)) => gap.is_empty() && is_port(port),
        None => false,
    }
}

fn is_bracketed(inner: &str) -> bool
    ensures { result ≡ is_bracketed (split_at 93 inner.now) }
{
    match split_at(inner, ']') {
        Some((host, rest)) => is_literal(host) && is_port_after(rest),
        None => false,
    }
}

// rule: Address of a server of etcd
/// Whether a string is `HOST:PORT`.
#[tactic(auto, unfolding(crate::specs::Paths::is_address))]
pub(crate) fn is_address(text: &str) -> bool
    ensures { result ≡ is_address text.now }
{
    match split_at(text, '[') {
        Some((before, inner)) => before.is_empty() && is_bracketed(inner),
        None => is_named(text),
    }
}
