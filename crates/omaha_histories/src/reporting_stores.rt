// Histories that print on standard error why a script or a raise isn't kept, and why no record can be read or adopted.

use failures::{HistoryFault, RecordFault};
use kept_records::{AppendFault, Cause, Kind, OpenFault, ReadFault, Record, Records, Stores};
use std::alloc::Global;
use std::rt::HostRuntime;
use streams::{Shown, offer};
use values::Text;

/// Histories of other stores. Each prints on standard error why a record after the first one isn't kept, and once why no
/// further record can be read, until one can be looked for again. It also prints once which record is forgotten after it was
/// read, as one is that doesn't follow those before it.
#[derive(Drop)]
pub struct ReportingStores<'a, H> {
    /// What has standard error.
    pub rt: &'a HostRuntime,
    /// Where the histories are.
    pub stores: H,
}

/// A history that prints on standard error why a record after the first one isn't kept, or none can be read or adopted.
#[derive(Drop)]
pub struct ReportedRecords<'a, K> {
    rt: &'a HostRuntime,
    path: Text,
    is_begun: bool,
    is_read: bool,
    // the number after that of the last known record
    next: u64,
    // the number of the last record that was forgotten, 0 without one
    forgotten: u64,
    kept: K,
}

// Prints what is wrong with the history at a path.
fn report(rt: &HostRuntime, path: &Text, fault: HistoryFault) {
    let path = Shown {
        string: path.as_str(),
    };
    let mut errors = rt.stderr();
    match format!(in rt.alloc(); "omaha: history {path}: {fault}\n") {
        Ok(line) => offer(&mut errors, line.as_str().as_bytes()),
        Err(_) => offer(&mut errors, b"omaha: memory\n"),
    }
}

impl<K: Records> Records for ReportedRecords<'_, K> {
    ghost kept = { λ reported. K.kept reported.kept };

    ghost first = { λ reported. K.first reported.kept };

    ghost was_read = { λ reported. K.was_read reported.kept };

    ghost lasts = { λ reported. K.lasts reported.kept };

    fn first(&self) -> u64 {
        self.kept.first()
    }

    fn lasts(&self) -> bool {
        self.kept.lasts()
    }

    fn append(&mut self, alloc: Global, kind: Kind, bytes: &[u8]) -> Result<(), AppendFault> {
        match self.kept.append(alloc, kind, bytes) {
            Ok(()) => {
                self.is_begun = true;
                self.next = self.next.saturating_add(1);
                Ok(())
            }
            Err(fault) => {
                if self.is_begun && fault != AppendFault::Taken {
                    report(self.rt, &self.path, HistoryFault::Append(fault));
                }
                Err(fault)
            }
        }
    }

    fn next(&mut self, alloc: Global) -> Result<Option<Record>, ReadFault> {
        match self.kept.next(alloc) {
            Ok(found) => {
                self.is_begun = true;
                self.is_read = true;
                if found.is_some() {
                    self.next = self.next.saturating_add(1);
                }
                Ok(found)
            }
            Err(ReadFault::Failed(cause)) => {
                if self.is_read {
                    let fault = HistoryFault::Open(OpenFault::Failed(cause));
                    report(self.rt, &self.path, fault);
                }
                self.is_read = false;
                Err(ReadFault::Failed(cause))
            }
        }
    }

    fn unread(&mut self) -> bool {
        if !self.kept.unread() {
            return false;
        }
        self.next = self.next.saturating_sub(1);
        if self.forgotten != self.next {
            let fault = HistoryFault::Record(self.next, RecordFault::Unadopted);
            report(self.rt, &self.path, fault);
        }
        self.forgotten = self.next;
        true
    }

    fn compact(&mut self, alloc: Global, number: u64, bytes: &[u8]) -> Result<(), AppendFault> {
        self.kept.compact(alloc, number, bytes)?;
        self.next = number.saturating_add(1);
        Ok(())
    }
}

impl<'a, H: Stores> Stores for ReportingStores<'a, H> {
    type Kept = ReportedRecords<'a, H::Kept>;

    ghost found = { λ reporting. H.found reporting.stores };

    fn open_records(
        &self,
        path: &str,
        limit: u64,
    ) -> Result<(ReportedRecords<'a, H::Kept>, Vec<Record>), OpenFault> {
        let Ok(name) = Text::copy_of(self.rt.alloc(), path) else {
            return Err(OpenFault::Failed(Cause::Memory));
        };
        let (kept, records) = self.stores.open_records(path, limit)?;
        let reported = ReportedRecords {
            rt: self.rt,
            path: name,
            is_begun: !records.is_empty(),
            is_read: true,
            next: kept.first().saturating_add(records.len() as u64),
            forgotten: 0,
            kept,
        };
        Ok((reported, records))
    }
}
