// The records of a server that may have a history.

use kept_records::{AppendFault, Kind, ReadFault, Record, Records, Unkept};
use std::alloc::Global;

/// The records of a history, or those of a server without one, which no restart finds.
#[derive(Drop)]
pub enum ServerRecords<K> {
    /// In a history.
    Kept(K),
    /// In none.
    Unkept(Unkept),
}

impl<K: Records> Records for ServerRecords<K> {
    ghost use Rattle.omaha_histories.specs.Server.{first_in, known_in, lasts_in, was_read_in};

    ghost kept = { λ records. known_in K.kept records };

    ghost first = { λ records. first_in K.first records };

    ghost was_read = { λ records. was_read_in K.was_read records };

    ghost lasts = { λ records. lasts_in K.lasts records };

    fn first(&self) -> u64 {
        match self {
            ServerRecords::Kept(records) => records.first(),
            ServerRecords::Unkept(records) => records.first(),
        }
    }

    fn lasts(&self) -> bool {
        match self {
            ServerRecords::Kept(records) => records.lasts(),
            ServerRecords::Unkept(records) => records.lasts(),
        }
    }

    fn append(&mut self, alloc: Global, kind: Kind, bytes: &[u8]) -> Result<(), AppendFault> {
        match self {
            ServerRecords::Kept(records) => records.append(alloc, kind, bytes),
            ServerRecords::Unkept(records) => records.append(alloc, kind, bytes),
        }
    }

    fn next(&mut self, alloc: Global) -> Result<Option<Record>, ReadFault> {
        match self {
            ServerRecords::Kept(records) => records.next(alloc),
            ServerRecords::Unkept(records) => records.next(alloc),
        }
    }

    fn unread(&mut self) -> bool {
        match self {
            ServerRecords::Kept(records) => records.unread(),
            ServerRecords::Unkept(records) => records.unread(),
        }
    }

    fn compact(&mut self, alloc: Global, number: u64, bytes: &[u8]) -> Result<(), AppendFault> {
        match self {
            ServerRecords::Kept(records) => records.compact(alloc, number, bytes),
            ServerRecords::Unkept(records) => records.compact(alloc, number, bytes),
        }
    }
}
