// The tables of pinned tracks that a worker keeps.

ghost use Rattle.std.specs.Prelude.{◌≡◌};
ghost use Rattle.service_desks.specs.Kept.{AreOf, AreOfBeginning, AreKept};
ghost use Rattle.publisher.specs.Sights.{Sight};

use editions::Edition;
use par_tables::TableCache;

/// Tables of pinned tracks, with the number of the edition that they are of.
pub(crate) struct KeptTables {
    pub(crate) number: u64,
    pub(crate) tables: TableCache,
}

// Written out, so that no caller proves again how each part is dropped.
impl Drop for KeptTables {
    fn drop(self) {
        let KeptTables {
            number: _,
            tables: _,
        } = self;
    }
}

impl KeptTables {
    /// Makes room for so many tables. It takes no memory.
    pub(crate) fn new(capacity: usize) -> KeptTables
        ensures { (sight : Sight) → AreKept sight result }
    {
        KeptTables {
            number: 0,
            tables: TableCache::new(capacity),
        }
    }

    // rule: Tables that a worker keeps
    /// Drops the tables, if they are of an earlier edition.
    pub(crate) fn turn_to(&mut self, edition: &Edition)
        requires { AreOfBeginning edition.now self.old }
        ensures { AreOf edition.now self.new }
    {
        let number = edition.number();
        if self.number != number {
            self.tables.clear();
            self.number = number;
        }
    }
}
