// The parts of a path of etcd.

ghost use Rattle.std.specs.Prelude.{◌≡◌, ◌<◌, drop, length, false, true, IfOk, MatchOption, MatchResult, None, Ok, Err, Some};
ghost use Rattle.std.specs.List.{list_all};
ghost use Rattle.etcd_records.specs.Paths.{addresses_fault, addresses_in, etcd_path_in, hosts_fault, is_etcd_path, is_visible, parts_after, parts_by, parts_of, prefix_fault};

use crate::paths::address::{is_address, split_at};
use crate::paths::fault::EtcdPathFault;
use std::alloc::{AllocError, Global};
use values::{Items, Text};

/// The parts of a path of etcd, which are valid.
#[derive(Clone, Copy, Drop)]
pub struct EtcdPath<'a> {
    /// The addresses, from 1 to 16, with commas between them. Each is `HOST:PORT`.
    pub hosts: &'a str,
    /// What the keys begin with: 1 to 256 characters of visible ASCII.
    pub prefix: &'a str,
}

// How many addresses a path may have.
const MAX_ADDRESSES: usize = 16;

// How many bytes a prefix may have.
const MAX_PREFIX: usize = 256;

fn is_visible(bytes: &[u8]) -> bool
    ensures { result ≡ list_all is_visible bytes.now }
{
    bytes.iter().all(|byte| b' ' < *byte && *byte < 127)
}

// What is wrong with a prefix.
fn prefix_fault(prefix: &str) -> Option<EtcdPathFault>
    ensures { result ≡ prefix_fault prefix.now }
{
    if prefix.is_empty() {
        return Some(EtcdPathFault::NoPrefix);
    }
    if prefix.len() > MAX_PREFIX {
        return Some(EtcdPathFault::LongPrefix);
    }
    if is_visible(prefix.as_bytes()) {
        None
    } else {
        Some(EtcdPathFault::BadPrefix)
    }
}

// What is wrong with addresses, of which there are some.
fn addresses_fault(hosts: &str) -> Option<EtcdPathFault>
    ensures { result ≡ addresses_fault 1 (addresses_in hosts.now) }
{
    let mut rest = hosts;
    for number in 1..=MAX_ADDRESSES {
        let Some((first, others)) = split_at(rest, ',') else {
            return if is_address(rest) {
                None
            } else {
                Some(EtcdPathFault::BadAddress(number))
            };
        };
        if !is_address(first) {
            return Some(EtcdPathFault::BadAddress(number));
        }
        rest = others;
    }
    Some(EtcdPathFault::ManyAddresses)
}

fn hosts_fault(hosts: &str) -> Option<EtcdPathFault>
    ensures { result ≡ hosts_fault hosts.now }
{
    if hosts.is_empty() {
        return Some(EtcdPathFault::NoAddress);
    }
    addresses_fault(hosts)
}

// The parts, if they are valid.
fn parts_by<'a>(hosts: &'a str, prefix: &'a str) -> Result<EtcdPath<'a>, EtcdPathFault>
    ensures { MatchResult result
        (λ parts. parts_by hosts.now prefix.now (hosts_fault hosts.now) (prefix_fault prefix.now) ≡ Ok (parts_of parts))
        (λ why. parts_by hosts.now prefix.now (hosts_fault hosts.now) (prefix_fault prefix.now) ≡ Err why) }
{
    if let Some(fault) = hosts_fault(hosts) {
        return Err(fault);
    }
    if let Some(fault) = prefix_fault(prefix) {
        return Err(fault);
    }
    Ok(EtcdPath { hosts, prefix })
}

// The parts of what follows the scheme.
fn parts_after(rest: &str) -> Result<EtcdPath<'_>, EtcdPathFault>
    ensures { MatchResult result
        (λ parts. parts_after rest.now ≡ Ok (parts_of parts)) (λ why. parts_after rest.now ≡ Err why) }
{
    match split_at(rest, '/') {
        Some((hosts, prefix)) => parts_by(hosts, prefix),
        None => parts_by(rest, ""),
    }
}

// What follows the scheme, if there is one.
fn after_scheme(path: &str) -> Option<&str>
    ensures { MatchOption result (is_etcd_path path.now ≡ false)
        (λ rest. (is_etcd_path path.now ≡ true) × (rest.now ≡ drop 7 path.now)) }
{
    path.strip_prefix("etcd://")
}

// rule: Path of a history in etcd
/// Whether a path begins with `etcd://`, valid or not.
pub fn is_etcd_path(path: &str) -> bool
    ensures { result ≡ is_etcd_path path.now }
{
    after_scheme(path).is_some()
}

// rule: Path of a history in etcd
/// Returns the parts of a path `etcd://ADDRESSES/PREFIX`, or why it is invalid; `None` if it doesn't begin with `etcd://`.
///
/// The addresses are `HOST:PORT` with commas between them, from 1 to 16. A host is a name, an IPv4 address, or an IPv6
/// address in brackets. What follows the first slash after them is the prefix, in which there may be more.
///
/// Errors: `NoAddress`; `BadAddress` of the first invalid one, if it is one of the first 16; `ManyAddresses`; `NoPrefix`;
/// `LongPrefix`; `BadPrefix`.
#[tactic(auto, unfolding(crate::specs::Paths::etcd_path_in))]
pub fn parse_etcd_path(path: &str) -> Option<Result<EtcdPath<'_>, EtcdPathFault>>
    ensures { MatchOption result (etcd_path_in path.now ≡ None) (λ read. MatchResult read
        (λ parts. etcd_path_in path.now ≡ Some (Ok (parts_of parts))) (λ why. etcd_path_in path.now ≡ Some (Err why))) }
{
    match after_scheme(path) {
        Some(rest) => Some(parts_after(rest)),
        None => None,
    }
}

impl EtcdPath<'_> {
    /// Copies the addresses into new memory, in their order.
    pub fn addresses(&self, alloc: Global) -> Result<Items<Text>, AllocError>
        ensures all { IfOk result (λ all. all ≡ addresses_in self.now.hosts.now) }
        ensures some { IfOk result (λ all. 0 < length all) }
    {
        let mut all = Items::empty(alloc);
        let mut rest = self.hosts;
        while let Some((first, others)) = split_at(rest, ',') {
            all.push(Text::copy_of(alloc, first)?)?;
            rest = others;
        }
        all.push(Text::copy_of(alloc, rest)?)?;
        Ok(all)
    }
}
