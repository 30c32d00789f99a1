// Records of a history in etcd that are read whole.

ghost use Rattle.std.specs.Prelude.{◌≡◌, [], IfErr, IfOk, None};
ghost use Rattle.etcd_records.specs.Handles.{IsSameBut};
ghost use Rattle.etcd_records.specs.Openings.{AreAll, GoesOn, OpenFails, open_fault_of};

use crate::gateway::Gateway;
use crate::handle::EtcdRecords;
use kept_records::{Cause, MAX_RECORDS, OpenFault, ReadFault, Record, Records};
use std::alloc::Global;
use streams::Trace;
use values::Text;

// What an open reports if a read fails so.
fn open_fault_of(fault: ReadFault) -> OpenFault
    ensures { result ≡ open_fault_of fault }
{
    match fault {
        ReadFault::Failed(cause) => OpenFault::Failed(cause),
    }
}

impl<G: Gateway> EtcdRecords<G> {
    // A handle that knows no record yet.
    fn fresh(gateway: G, attempts: u32, prefix: Text, limit: u64) -> EtcdRecords<G>
        ensures gateway { result.gateway ≡ gateway }
        ensures attempts { result.attempts ≡ attempts }
        ensures prefix { result.prefix ≡ prefix }
        ensures limit { result.limit ≡ limit }
        ensures none { result.kept ≡ [] }
        ensures unseen { result.seen ≡ None }
    {
        EtcdRecords {
            gateway,
            attempts,
            prefix,
            count: 0,
            left: Some(limit),
            limit,
            marks: Trace::new(),
            last: None,
            seen: None,
        }
    }

    // Reads the records after those that are known, of which there are none.
    fn read_all(&mut self, alloc: Global) -> Result<Vec<Record>, OpenFault>
        requires { self.old.kept ≡ [] }
        ensures known { IfOk result (λ all. self.new.kept ≡ all.items) }
        ensures all { IfOk result (λ _.
            AreAll self.new.attempts (G.exchanges self.new.gateway) self.new.prefix self.new.kept) }
        ensures err { IfErr result (OpenFails self.old.attempts self.old.prefix) }
        ensures same { IsSameBut self.old self.new }
        ensures goes_on { GoesOn (G.exchanges self.old.gateway) (G.exchanges self.new.gateway) }
    {
        let mut all = Vec::new(alloc);
        for _number in 0..MAX_RECORDS {
            match self.next(alloc) {
                Ok(Some(next)) => {
                    if all.push(next).is_err() {
                        return Err(OpenFault::Failed(Cause::Memory));
                    }
                }
                Ok(None) => return Ok(all),
                Err(fault) => return Err(open_fault_of(fault)),
            }
        }
        Ok(all)
    }
}

impl<G: Gateway + Drop> EtcdRecords<G> {
    // rule: Opened history in etcd
    /// Opens the history whose keys begin with a prefix, and returns its records in order.
    ///
    /// Each request is posted at most so many times, until a server replies. All records may have at most so many bytes
    /// together; if there are more already, none can be appended. It fails as the read of a record does: a value that is
    /// none of a record is `Damaged`.
    pub fn open(
        alloc: Global,
        gateway: G,
        attempts: u32,
        prefix: Text,
        limit: u64,
    ) -> Result<(EtcdRecords<G>, Vec<Record>), OpenFault>
        ensures known { IfOk result (λ opened. opened.0.kept ≡ opened.1.items) }
        ensures all { IfOk result (λ opened. AreAll attempts (G.exchanges opened.0.gateway) prefix opened.0.kept) }
        ensures attempts { IfOk result (λ opened. opened.0.attempts ≡ attempts) }
        ensures prefix { IfOk result (λ opened. opened.0.prefix ≡ prefix) }
        ensures limit { IfOk result (λ opened. opened.0.limit ≡ limit) }
        ensures goes_on { IfOk result (λ opened. GoesOn (G.exchanges gateway) (G.exchanges opened.0.gateway)) }
        ensures err { IfErr result (OpenFails attempts prefix) }
    {
        let mut records = EtcdRecords::fresh(gateway, attempts, prefix, limit);
        match records.read_all(alloc) {
            Ok(all) => Ok((records, all)),
            Err(fault) => Err(fault),
        }
    }
}
