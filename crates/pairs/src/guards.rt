// A guard on the count of a pair table.
ghost use Rattle.std.specs.Prelude.{◌≡◌, length, take};
ghost use Rattle.pairs.specs.Tables.{pairs_of};

use crate::tables::PairTable;

// Puts the count back when it is dropped, so that a call that enters pairs leaves none where it returns early; `keep` lets
// them stay.
pub struct PairGuard<'a> {
    pub table: &'a mut PairTable,
    count: usize,
}

impl<'a> PairGuard<'a> {
    pub fn new(table: &'a mut PairTable) -> PairGuard<'a>
        ensures same_reference { result.table.ghost_name ≡ table.entry.ghost_name }
        ensures table { result.table.now ≡ table.old }
        ensures count { result.count ≡ length (pairs_of table.old) }
    {
        let count = table.len();
        PairGuard { table, count }
    }

    // Puts the count back already now, and guards on.
    pub fn put_back(&mut self)
        ensures same_reference { self.new.table.ghost_name ≡ self.old.table.ghost_name }
        ensures table { pairs_of self.new.table.now ≡ take self.old.count (pairs_of self.old.table.now) }
        ensures count { self.new.count ≡ self.old.count }
    {
        self.table.truncate(self.count);
    }

    // The pairs that are there now stay.
    pub fn keep(self)
        ensures { self.exit.0.now ≡ self.entry.table.now }
    {
        let PairGuard { table: _, count: _ } = self;
    }
}

impl Drop for PairGuard<'_> {
    fn drop(self)
        ensures { pairs_of self.exit.0.now ≡ take self.entry.count (pairs_of self.entry.table.now) }
    {
        let PairGuard { table, count } = self;
        table.truncate(count);
    }
}
