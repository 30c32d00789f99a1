// What calls make of records in etcd.

ghost use Rattle.std.specs.Prelude.{◌≡◌, ◌+◌, ◌↔◌, ◌<◌, ◌≤◌, ◌^◌, ◌++◌, ◌∷◌, [], Err, IfOk, IfSome, IsTrue, List, Ok, length, string_bytes, true};
ghost use Rattle.base64.specs.Engines.{standard};
ghost use Rattle.base64.specs.GeneralPurpose.{decode_of};
ghost use Rattle.kept_records.specs.declared.fault.AppendFault.TheVariants.{Failed};
ghost use Rattle.kept_records.specs.declared.fault.Cause.TheVariants.{Shared};
ghost use Rattle.kept_records.specs.declared.record.Kind.TheVariants.{Profile};
ghost use Rattle.kept_records.specs.Keeping.{Appends, Compacts, Forgets, HasRoom, Learns, Numbers, record_of};
ghost use Rattle.etcd_records.specs.declared.exchange.Exchange.{Exchange};
ghost use Rattle.etcd_records.specs.Appending.{AppendsBy, NextBy};
ghost use Rattle.etcd_records.specs.Asking.{IsHeard, heard_of, seen_by};
ghost use Rattle.etcd_records.specs.Handles.{AreShown, IsSameBut, IsShown};
ghost use Rattle.etcd_records.specs.Keys.{encoded_key, value_of, encoded_value};
ghost use Rattle.etcd_records.specs.Requests.{range_request, txn_request};

use crate::asking::{Asked, ask, seen_by};
use crate::gateway::Gateway;
use crate::handle::{EtcdRecords, Last, Mark, less, pass};
use crate::keys::{encoded_key, encoded_value};
use crate::requests::{RANGE_PATH, TXN_PATH, range_request, txn_request};
use crate::verdicts::{append_result, read_result};
use kept_records::{AppendFault, Cause, Kind, MAX_RECORDS, ReadFault, Record, Records};
use std::alloc::{AllocError, Global};

// A transaction, and the value in base64 that it puts.
struct Wanted {
    request: String,
    value: String,
}

// Written out, so that no caller proves again how each part is dropped.
impl Drop for Wanted {
    fn drop(self) {
        let Wanted {
            request: _,
            value: _,
        } = self;
    }
}

impl<G: Gateway> EtcdRecords<G> {
    /// Exposes to a caller's proof that an exchange has shown each known record; no run-time effect.
    pub fn are_shown(&self)
        ensures { AreShown (G.exchanges self.now.gateway) self.now.prefix self.now.kept }
    {
        let _ = &self.gateway;
    }

    // rule: Limit of all records
    // Whether a record of so many bytes may be added.
    fn has_room(&self, bytes: usize) -> bool
        ensures { IsTrue result ↔ HasRoom self.now.limit self.now.kept bytes }
    {
        match self.left {
            Some(left) => self.count < MAX_RECORDS && bytes as u64 <= left,
            None => false,
        }
    }

    // The number of the record after the known ones.
    fn next_number(&self) -> u64
        ensures { result ≡ length self.now.kept + 1 }
    {
        self.count as u64 + 1
    }

    // The transaction that appends a record after the known ones.
    fn txn(&self, alloc: Global, kind: Kind, bytes: &[u8]) -> Result<Wanted, AllocError>
        ensures value { IfOk result (λ wanted. string_bytes wanted.value ≡ encoded_value (record_of kind bytes.now)) }
        ensures decodes { IfOk result (λ wanted.
            decode_of standard (string_bytes wanted.value) ≡ Ok (value_of (record_of kind bytes.now))) }
        ensures request { IfOk result (λ wanted. string_bytes wanted.request
            ≡ txn_request (encoded_key self.now.prefix (length self.now.kept + 1)) (string_bytes wanted.value)) }
    {
        let key = encoded_key(alloc, self.prefix.as_str(), self.next_number())?;
        let value = encoded_value(alloc, kind, bytes)?;
        let request = txn_request(alloc, &key, &value)?;
        Ok(Wanted { request, value })
    }

    // The read of the record after the known ones.
    fn range(&self, alloc: Global) -> Result<String, AllocError>
        ensures { IfOk result (λ request. string_bytes request
            ≡ range_request (encoded_key self.now.prefix (length self.now.kept + 1))) }
    {
        let key = encoded_key(alloc, self.prefix.as_str(), self.next_number())?;
        range_request(alloc, &key)
    }

    // Posts a request until etcd replies.
    fn ask(&mut self, alloc: Global, path: &str, body: &[u8]) -> Asked
        ensures heard { (done : List Exchange) × (G.exchanges self.new.gateway ≡ G.exchanges self.old.gateway ++ done)
            × IsHeard self.old.attempts self.old.seen path.now body.now done (heard_of result) }
        ensures seen { self.new.seen ≡ seen_by self.old.seen (heard_of result) }
        ensures kept { self.new.kept ≡ self.old.kept }
        ensures same { IsSameBut self.old self.new }
    {
        let asked = ask(
            &mut self.gateway,
            alloc,
            self.attempts,
            self.seen,
            path,
            body,
        );
        self.seen = seen_by(self.seen, &asked);
        asked
    }

    // rule: Known records in etcd
    // Learns the next record, which an exchange has shown.
    fn learn(&mut self, kind: Kind, bytes: &[u8], was_read: bool)
        requires shown { IsShown (G.exchanges self.old.gateway) self.old.prefix (length self.old.kept + 1)
            (record_of kind bytes.now) }
        requires room { length self.old.kept < 65536 }
        ensures kept { self.new.kept ≡ self.old.kept ++ record_of kind bytes.now ∷ [] }
        ensures gateway { self.new.gateway ≡ self.old.gateway }
        ensures read { self.new.read ≡ was_read }
        ensures seen { self.new.seen ≡ self.old.seen }
        ensures same { IsSameBut self.old self.new }
    {
        let left = self.left;
        let last = self.last.take();
        pass(&mut self.marks, last);
        self.last = Some(Last {
            mark: Mark::of(kind, bytes),
            was_read,
            left,
        });
        self.count += 1;
        self.left = less(left, bytes.len());
    }

    // Reads the next record, which is not known yet.
    fn read_next(&mut self, alloc: Global) -> Result<Option<Record>, ReadFault>
        ensures by { (done : List Exchange) × (G.exchanges self.new.gateway ≡ G.exchanges self.old.gateway ++ done)
            × NextBy self.old.attempts self.old.seen self.new.seen self.old.prefix self.old.kept done result }
        ensures shown { IfOk result (λ found. IfSome found
            (IsShown (G.exchanges self.new.gateway) self.new.prefix (length self.new.kept + 1))) }
        ensures room { IfOk result (λ found. IfSome found (λ _. length self.new.kept < 65536)) }
        ensures kept { self.new.kept ≡ self.old.kept }
        ensures same { IsSameBut self.old self.new }
    {
        if self.count >= MAX_RECORDS {
            return Ok(None);
        }
        let Ok(request) = self.range(alloc) else {
            return Err(ReadFault::Failed(Cause::Memory));
        };
        let asked = self.ask(alloc, RANGE_PATH, request.as_bytes());
        read_result(alloc, &asked)
    }
}

impl<G: Gateway> Records for EtcdRecords<G> {
    ghost kept = { λ records. records.kept };

    ghost first = { λ _. 1 };

    ghost was_read = { λ records. records.read ≡ true };

    ghost lasts = { λ _. true };

    fn first(&self) -> u64 {
        1
    }

    fn lasts(&self) -> bool {
        true
    }

    // rule: Append to etcd
    fn append(&mut self, alloc: Global, kind: Kind, bytes: &[u8]) -> Result<(), AppendFault>
        ensures appends { Appends (record_of kind bytes.now) result self.old.kept self.new.kept }
        ensures by { (done : List Exchange) × (G.exchanges self.new.gateway ≡ G.exchanges self.old.gateway ++ done)
            × AppendsBy self.old.attempts self.old.seen self.new.seen self.old.prefix self.old.limit self.old.kept
            (record_of kind bytes.now) done result }
        ensures same { IsSameBut self.old self.new }
    {
        if !self.has_room(bytes.len()) {
            return Err(AppendFault::Full);
        }
        let Ok(wanted) = self.txn(alloc, kind, bytes) else {
            return Err(AppendFault::Failed(Cause::Memory));
        };
        let asked = self.ask(alloc, TXN_PATH, wanted.request.as_bytes());
        append_result(&wanted.value, &asked)?;
        self.learn(kind, bytes, false);
        Ok(())
    }

    // rule: Read from etcd
    fn next(&mut self, alloc: Global) -> Result<Option<Record>, ReadFault>
        ensures learns { Learns result self.old.kept self.new.kept }
        ensures read { IfOk result (λ found. IfSome found (λ _. self.new.read ≡ true)) }
        ensures by { (done : List Exchange) × (G.exchanges self.new.gateway ≡ G.exchanges self.old.gateway ++ done)
            × NextBy self.old.attempts self.old.seen self.new.seen self.old.prefix self.old.kept done result }
        ensures same { IsSameBut self.old self.new }
    {
        match self.read_next(alloc)? {
            Some(next) => {
                self.learn(next.kind, next.bytes.as_slice(), true);
                Ok(Some(next))
            }
            None => Ok(None),
        }
    }

    fn unread(&mut self) -> bool
        ensures forgets { Forgets result self.old.kept self.new.kept }
        ensures read { self.old.read ≡ true → IsTrue result }
        ensures gateway { self.new.gateway ≡ self.old.gateway }
        ensures seen { self.new.seen ≡ self.old.seen }
        ensures same { IsSameBut self.old self.new }
    {
        let Some(last) = self.last.take() else {
            return false;
        };
        if !last.was_read {
            self.last = Some(last);
            return false;
        }
        self.count -= 1;
        self.left = last.left;
        true
    }

    /// Fails: other servers know the records by their numbers.
    fn compact(&mut self, _alloc: Global, _number: u64, _bytes: &[u8]) -> Result<(), AppendFault>
        requires { (1 ≤ _number) × (_number ≤ 2 ^ 53) }
        ensures compacts { Compacts (record_of Profile _bytes.now) result self.old.kept self.new.kept }
        ensures first { Numbers _number result 1 1 }
        ensures shared { result ≡ Err (Failed Shared) }
        ensures same { self.new ≡ self.old }
    {
        Err(AppendFault::Failed(Cause::Shared))
    }
}
