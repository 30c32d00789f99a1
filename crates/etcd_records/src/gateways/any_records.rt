// Records in etcd, or those of other stores.

ghost use Rattle.std.specs.Prelude.{◌≡◌};

use crate::gateways::tcp_gateway::TcpGateway;
use crate::handle::EtcdRecords;
use kept_records::{AppendFault, Kind, ReadFault, Record, Records};
use std::alloc::Global;
use std::net::{Net, TcpListener, TcpStream};
use std::time::Clock;

/// Records of other stores, or records in etcd.
#[derive(Drop)]
pub enum AnyRecords<'a, R: Net<Listener = TcpListener, Stream = TcpStream> + Clock, K> {
    /// Those of other stores, as in a file.
    InFile(K),
    /// In etcd, over TCP.
    InEtcd(EtcdRecords<TcpGateway<'a, R>>),
}

impl<R: Net<Listener = TcpListener, Stream = TcpStream> + Clock, K: Records> Records
    for AnyRecords<'_, R, K> {
    ghost use Rattle.etcd_records.specs.Stores.{first_in, known_in, lasts_in, was_read_in};

    ghost kept = { λ records. known_in K.kept records };

    ghost first = { λ records. first_in K.first records };

    ghost was_read = { λ records. was_read_in K.was_read records };

    ghost lasts = { λ records. lasts_in K.lasts records };

    fn first(&self) -> u64 {
        match self {
            AnyRecords::InFile(records) => records.first(),
            AnyRecords::InEtcd(records) => records.first(),
        }
    }

    fn lasts(&self) -> bool {
        match self {
            AnyRecords::InFile(records) => records.lasts(),
            AnyRecords::InEtcd(records) => records.lasts(),
        }
    }

    fn append(&mut self, alloc: Global, kind: Kind, bytes: &[u8]) -> Result<(), AppendFault> {
        match self {
            AnyRecords::InFile(records) => records.append(alloc, kind, bytes),
            AnyRecords::InEtcd(records) => records.append(alloc, kind, bytes),
        }
    }

    fn next(&mut self, alloc: Global) -> Result<Option<Record>, ReadFault> {
        match self {
            AnyRecords::InFile(records) => records.next(alloc),
            AnyRecords::InEtcd(records) => records.next(alloc),
        }
    }

    fn unread(&mut self) -> bool {
        match self {
            AnyRecords::InFile(records) => records.unread(),
            AnyRecords::InEtcd(records) => records.unread(),
        }
    }

    fn compact(&mut self, alloc: Global, number: u64, bytes: &[u8]) -> Result<(), AppendFault> {
        match self {
            AnyRecords::InFile(records) => records.compact(alloc, number, bytes),
            AnyRecords::InEtcd(records) => records.compact(alloc, number, bytes),
        }
    }
}
