// Where a path says that records are: in etcd or elsewhere.

ghost use Rattle.std.specs.Prelude.{◌≡◌, ◌<◌, IfErr, IfOk, length};
ghost use Rattle.etcd_records.specs.Paths.{addresses_in, etcd_path_in, parts_of};
ghost use Rattle.etcd_records.specs.Openings.{OpenFails};
ghost use Rattle.etcd_records.specs.Stores.{AreFoundAt, AreOpenedAt, AreUnopened, IsHandleOf, attempts_for, first_in, known_in};

use crate::gateways::any_records::AnyRecords;
use crate::gateways::tcp_gateway::TcpGateway;
use crate::handle::EtcdRecords;
use crate::paths::{EtcdPath, parse_etcd_path};
use kept_records::{Cause, OpenFault, Record, Stores};
use std::alloc::{AllocError, Global};
use std::net::{Net, TcpListener, TcpStream};
use std::time::{Clock, Duration};
use values::{Items, Text};

// How many milliseconds a post to a server may take.
const TIME: u64 = 500;

// rule: Store of a path
// How often a request is posted until one of so many servers replies: each gets three, and one alone six.
fn attempts_for(servers: usize) -> u32
    ensures { result ≡ attempts_for servers }
{
    (servers.min(16) as u32 * 3).max(6)
}

// The addresses and the prefix of a path, in new memory.
fn owned_parts(alloc: Global, parts: &EtcdPath<'_>) -> Result<(Items<Text>, Text), AllocError>
    ensures addresses { IfOk result (λ owned. owned.0 ≡ addresses_in parts.now.hosts.now) }
    ensures some { IfOk result (λ owned. 0 < length owned.0) }
    ensures prefix { IfOk result (λ owned. owned.1 ≡ parts.now.prefix.now) }
{
    let addresses = parts.addresses(alloc)?;
    let prefix = Text::copy_of(alloc, parts.prefix)?;
    Ok((addresses, prefix))
}

/// Histories in etcd over TCP, and those of other stores.
#[derive(Drop)]
pub struct AnyStores<'a, R, F> {
    /// What has the network and the clock.
    pub rt: &'a R,
    /// Where all other histories are, as in files.
    pub files: F,
}

impl<'a, R: Net<Listener = TcpListener, Stream = TcpStream> + Clock + AllocGlobal, F> AnyStores<
    'a,
    R,
    F,
> {
    // Opens the records in etcd of a path with these parts.
    fn open_etcd(
        &self,
        parts: &EtcdPath<'_>,
        limit: u64,
    ) -> Result<(EtcdRecords<TcpGateway<'a, R>>, Vec<Record>), OpenFault>
        ensures known { IfOk result (λ opened. opened.0.kept ≡ opened.1.items) }
        ensures opened { IfOk result (λ opened. IsHandleOf (parts_of parts.now) limit opened.0) }
        ensures err { IfErr result (OpenFails (attempts_for (length (addresses_in parts.now.hosts.now))) parts.now.prefix.now) }
    {
        let Ok((addresses, prefix)) = owned_parts(self.rt.alloc(), parts) else {
            return Err(OpenFault::Failed(Cause::Memory));
        };
        let attempts = attempts_for(addresses.len());
        let gateway = TcpGateway::new(self.rt, Duration::from_millis(TIME), addresses);
        match EtcdRecords::open(self.rt.alloc(), gateway, attempts, prefix, limit) {
            Ok((records, all)) => {
                records.are_shown();
                Ok((records, all))
            }
            Err(fault) => Err(fault),
        }
    }
}

impl<'a, R: Net<Listener = TcpListener, Stream = TcpStream> + Clock + AllocGlobal, F: Stores> Stores
    for AnyStores<'a, R, F> {
    type Kept = AnyRecords<'a, R, F::Kept>;

    ghost use Rattle.etcd_records.specs.Paths.{etcd_path_in};
    ghost use Rattle.etcd_records.specs.Stores.{AreFoundAt};

    ghost found = { λ stores path. AreFoundAt (F.found stores.files path) (etcd_path_in path) };

    // rule: Store of a path
    /// Opens the records in etcd if the path begins with `etcd://`, and those of the other stores if not.
    ///
    /// An invalid path that begins so is `Unopened`.
    fn open_records(
        &self,
        path: &str,
        limit: u64,
    ) -> Result<(AnyRecords<'a, R, F::Kept>, Vec<Record>), OpenFault>
        ensures known { IfOk result (λ opened. known_in F.Kept.kept opened.0 ≡ opened.1.items) }
        ensures found { IfOk result (λ opened. AreFoundAt (F.found self.now.files path.now) (etcd_path_in path.now)
            (first_in F.Kept.first opened.0) opened.1.items) }
        ensures opened { IfOk result (λ opened. AreOpenedAt (etcd_path_in path.now) limit opened.0) }
        ensures err { IfErr result (AreUnopened (etcd_path_in path.now)) }
    {
        match parse_etcd_path(path) {
            Some(Ok(parts)) => match self.open_etcd(&parts, limit) {
                Ok((records, all)) => Ok((AnyRecords::InEtcd(records), all)),
                Err(fault) => Err(fault),
            },
            Some(Err(_)) => Err(OpenFault::Unopened),
            None => match self.files.open_records(path, limit) {
                Ok((records, all)) => Ok((AnyRecords::InFile(records), all)),
                Err(fault) => Err(fault),
            },
        }
    }
}
