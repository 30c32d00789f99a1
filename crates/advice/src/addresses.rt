//! What is wrong with an address.

ghost use Rattle.std.specs.Prelude.{◌≡◌, Some};
ghost use Rattle.std.specs.List.{after_first};
ghost use Rattle.advice.specs.Addresses.{address_fault, address_remedy, fault_of_number, fault_of_pair, fault_of_place, fault_of_port, given_fault, has_colon, has_literal, has_no_host, has_scheme, is_bracket, is_colon, is_slash, is_socket, tail_of};
ghost use Rattle.std.specs.List.{list_any};

use omaha_arguments::number_of;
use std::fmt;

/// What is wrong with an address, of which an earlier one is reported before a later one. The last one is of a server's.
#[derive(Clone, Copy)]
pub(crate) enum AddressFault {
    Empty,
    NoPath,
    Scheme,
    Path,
    NoPort,
    BadPort,
    HighPort,
    NoHost,
    Twice,
}

impl AddressFault {
    // rule: Fault of an address
    fn remedy(&self) -> &'static str
        ensures { result.now ≡ address_remedy self.now }
    {
        match self {
            AddressFault::Empty => "the address is empty: write HOST:PORT, or unix:PATH",
            AddressFault::NoPath => "unix: has no path: write unix:PATH",
            AddressFault::Scheme => "write HOST:PORT, without http:// and a path",
            AddressFault::Path => "write HOST:PORT, without a path",
            AddressFault::NoPort => "it has no port: write HOST:PORT, or unix:PATH",
            AddressFault::BadPort => "its port is no number: write HOST:PORT, or unix:PATH",
            AddressFault::HighPort => "its port is above 65535",
            AddressFault::NoHost => "it has no host: write HOST:PORT, such as 127.0.0.1:8080",
            AddressFault::Twice => "--listen and --operator have this address: give each its own",
        }
    }
}

/// Writes what to do about it.
impl fmt::Display for AddressFault {
    ghost output = { λ fault. Some (address_remedy fault) };

    fn fmt<W: fmt::Write>(&self, f: &mut fmt::Formatter<W>) -> fmt::Result {
        f.write_str(self.remedy())
    }
}

fn is_socket(address: &str) -> bool
    ensures { result ≡ is_socket address.now }
{
    address.as_bytes().starts_with(b"unix:")
}

fn has_scheme(address: &str) -> bool
    ensures { result ≡ has_scheme address.now }
{
    address.as_bytes().starts_with(b"http://") || address.as_bytes().starts_with(b"https://")
}

fn has_no_host(address: &str) -> bool
    ensures { result ≡ has_no_host address.now }
{
    address.as_bytes().starts_with(b":")
}

fn has_literal(address: &str) -> bool
    ensures { result ≡ has_literal address.now }
{
    address.as_bytes().starts_with(b"[")
}

fn has_slash(address: &str) -> bool
    ensures { result ≡ list_any is_slash address.now }
{
    address.as_bytes().iter().any(|byte| *byte == b'/')
}

fn has_colon(address: &str) -> bool
    ensures { result ≡ has_colon address.now }
{
    address.as_bytes().iter().any(|byte| *byte == b':')
}

// What is after the first bracket.
fn after_bracket(address: &str) -> &str
    ensures { result.now ≡ after_first is_bracket address.now }
{
    match address.split_once(']') {
        Some((_literal, rest)) => rest,
        None => "",
    }
}

// What is after the first colon.
fn after_colon(address: &str) -> &str
    ensures { result.now ≡ after_first is_colon address.now }
{
    match address.split_once(':') {
        Some((_host, rest)) => rest,
        None => "",
    }
}

fn tail_of(address: &str) -> &str
    ensures { result.now ≡ tail_of address.now }
{
    if has_literal(address) {
        after_bracket(address)
    } else {
        address
    }
}

fn fault_of_number(number: Option<u64>) -> Option<AddressFault>
    ensures { result ≡ fault_of_number number }
{
    match number {
        None => Some(AddressFault::BadPort),
        Some(number) if number < 65536 => None,
        Some(_) => Some(AddressFault::HighPort),
    }
}

fn fault_of_port(port: &str) -> Option<AddressFault>
    ensures { result ≡ fault_of_port port.now }
{
    if port.is_empty() {
        Some(AddressFault::NoPort)
    } else {
        fault_of_number(number_of(port))
    }
}

fn fault_of_pair(address: &str) -> Option<AddressFault>
    ensures { result ≡ fault_of_pair address.now }
{
    let tail = tail_of(address);
    if has_colon(tail) {
        fault_of_port(after_colon(tail))
    } else {
        Some(AddressFault::NoPort)
    }
}

// What is wrong with a host and a port, of which there may be no host.
fn fault_of_place(address: &str) -> Option<AddressFault>
    ensures { result ≡ fault_of_place address.now }
{
    match fault_of_pair(address) {
        Some(fault) => Some(fault),
        None if has_no_host(address) => Some(AddressFault::NoHost),
        None => None,
    }
}

// rule: Fault of an address
// What is wrong with an address, if it is neither HOST:PORT nor unix:PATH.
fn address_fault(address: &str) -> Option<AddressFault>
    ensures { result ≡ address_fault address.now }
{
    if address.is_empty() {
        Some(AddressFault::Empty)
    } else if is_socket(address) {
        if address.len() == 5 {
            Some(AddressFault::NoPath)
        } else {
            None
        }
    } else if has_scheme(address) {
        Some(AddressFault::Scheme)
    } else if has_slash(address) {
        Some(AddressFault::Path)
    } else {
        fault_of_place(address)
    }
}

/// What is wrong with an address that a server may have been given twice.
pub(crate) fn given_fault(address: &str, is_twice: bool) -> Option<AddressFault>
    ensures { result ≡ given_fault address.now is_twice }
{
    match address_fault(address) {
        Some(fault) => Some(fault),
        None if is_twice => Some(AddressFault::Twice),
        None => None,
    }
}
