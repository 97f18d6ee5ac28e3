//! How many rows of each table were written.
ghost use Rattle.std.specs.Prelude.{◌≡◌};
ghost use Rattle.office_tables_shelf.specs.Counts.{no_writes, count_of, count_at, counts_after};

use crate::rows::{RowChange, Table};

/// The row writes of each table so far, in the order of the tables. A count stays at `u64::MAX`
/// once it is there.
#[derive(Clone, Copy)]
pub struct WriteCounts {
    counts: [u64; 8],
}

impl WriteCounts {
    /// The counts before any row is written: each is 0.
    pub fn new() -> WriteCounts
        ensures { result ≡ no_writes }
    {
        WriteCounts { counts: [0; 8] }
    }

    /// The row writes of a table.
    pub fn of(&self, table: Table) -> u64
        ensures { result ≡ count_of self.now table }
    {
        self.counts[table as usize]
    }

    /// Counts some more rows of a table.
    fn count(&mut self, table: Table, rows: u64)
        ensures { self.new ≡ count_at self.old table rows }
    {
        let place = table as usize;
        self.counts[place] = self.counts[place].saturating_add(rows);
    }

    /// Counts the rows that each change writes, of its table.
    pub fn count_all(&mut self, changes: &[RowChange])
        ensures { self.new ≡ counts_after self.old changes.now }
    {
        for change in changes {
            self.count(change.table(), change.rows() as u64);
        }
    }
}
