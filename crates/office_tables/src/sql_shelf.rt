//! A shelf over the tables of the office in a database of SQL.

ghost use Rattle.std.specs.Prelude.{◌≡◌, true, Ok, Err, MatchResult};
ghost use Rattle.sqlite.specs.{Files.file_state, Held.state};
ghost use Rattle.office_tables.specs.{Arranged.IsArrangedIfClean, SqlShelf.IsCurrent, Opening.IsOpened, Opening.IsRefused, Opening.Opens};

use crate::foreign::{check_again, has_only_ours};
use crate::open::{OpenFault, Refused, prepare};
use cabinet_core::{Day, Hand, Inspection, Order, PartCode, UsedLine};
use office_tables_shelf::counts::WriteCounts;
use office_tables_shelf::register::{RegisterKey, RegisterRecord};
use office_tables_shelf::rows::{IntersectionRow, RowChange, Table};
use office_tables_shelf::shelf::{Shelf, ShelfFault};
use office_tables_sql::{change, each_row, plan, register, stored_row};
use signal_records::{Change, InterId, Row};
use sqlite::{Alter, Connection, FileStore, params};
use sqlite_disk::Disk;
use std::alloc::Global;
use std::collections::BTreeMap;
use std::marker::Model;

/// The tables of the office in a database of SQL.
#[derive(Drop)]
pub struct SqlShelf<S: Alter> {
    conn: Connection<S>,
    counts: WriteCounts,
}

impl<S: Alter> Model for SqlShelf<S> {
    ghost use Rattle.sqlite.specs.Held.{state};
    ghost use Rattle.office_tables.specs.SqlShelf.{IsCurrent, SqlView, view_code};

    ghost Value = { SqlView S };

    ghost coded = { view_code S.code };

    ghost view = { λ s. record { conn = s.conn; counts = s.counts } };

    ghost invariant = { λ s. IsCurrent (state S.Store s.conn) };
}

impl<S: Alter> SqlShelf<S> {
    /// Opens the tables of the office in a database whose tables all have the office's names. Those
    /// of today's version are taken, and where some are missing all are made, and those that were
    /// there keep their rows. Where no version is stored and no table has a row, all are made,
    /// whatever their layout, and today's version is stored.
    ///
    /// What is left of a database that was refused is dropped: `open_returning` gives it back. That
    /// `Version` and `Damaged` tell the truth is known where no disk can fail, as in memory; over
    /// files, nothing is known of a store that was dropped.
    pub fn open(alloc: Global, conn: Connection<S>) -> Result<SqlShelf<S>, OpenFault>
    where
        S: Drop,
        ensures opens { MatchResult result (IsOpened S.Store conn)
            (λ fault. (left : _) × IsRefused S.Store conn fault left) }
        ensures under_way { (state S.Store conn).in_transaction ≡ true →
            result ≡ Err OpenFault.Store }
    {
        match SqlShelf::open_returning(alloc, conn) {
            Ok(shelf) => Ok(shelf),
            Err((fault, _)) => Err(fault),
        }
    }

    /// Opens the tables of the office as `open` does. The database is checked again first, which
    /// shows that the rows of each table are in order. Where it refuses, what is left comes back:
    /// the connection, in which a transaction that was under way goes on, or its store where the
    /// database was not checked again.
    pub fn open_returning(alloc: Global, conn: Connection<S>) -> Result<SqlShelf<S>, Refused<S>>
    where
        S: Drop,
        ensures opens { Opens S.Store conn result }
        ensures under_way { (state S.Store conn).in_transaction ≡ true →
            result ≡ Err (OpenFault.Store, Ok conn) }
    {
        if !conn.is_autocommit() || !has_only_ours(conn.schema()) {
            return Err((OpenFault::Store, Ok(conn)));
        }
        match check_again(alloc, conn) {
            Ok(conn) => SqlShelf::open_arranged(alloc, conn),
            Err((fault, store)) => Err((OpenFault::from(fault), Err(store))),
        }
    }

    /// Opens the tables of the office as `open_returning` does, in a database whose rows are known
    /// to be in order, as those of files are that were just opened, and which is not checked again.
    pub fn open_arranged(alloc: Global, conn: Connection<S>) -> Result<SqlShelf<S>, Refused<S>>
    where
        S: Drop,
        requires { IsArrangedIfClean (state S.Store conn) }
        ensures opens { Opens S.Store conn result }
        ensures under_way { (state S.Store conn).in_transaction ≡ true →
            result ≡ Err (OpenFault.Store, Ok conn) }
    {
        match prepare(alloc, conn) {
            Ok(conn) => Ok(SqlShelf {
                conn,
                counts: WriteCounts::new(),
            }),
            Err(refused) => Err(refused),
        }
    }

    /// Does nothing. Its contract says what holds of a shelf at any time: its tables are the
    /// office's, with today's version.
    pub fn known(&self)
        ensures { IsCurrent (state S.Store self.now.conn) }
    {
        let _ = &self.conn;
    }

    /// Gives the connection back with its rows, all of them committed.
    pub fn into_conn(self) -> Connection<S>
        ensures same { result ≡ self.conn }
        ensures current { IsCurrent (state S.Store result) }
    {
        let SqlShelf { conn, .. } = self;
        conn
    }
}

impl<D: Disk> SqlShelf<FileStore<D>> {
    /// The connection of tables in files, with what it holds. Its type names the store of files, so
    /// that a caller does not show again what each call of that store promises.
    pub fn into_file_conn(self) -> Connection<FileStore<D>>
        ensures same { result ≡ self.conn }
        ensures current { IsCurrent (file_state result) }
    {
        self.into_conn()
    }
}

impl<S: Alter> Shelf for SqlShelf<S> {
    ghost use Rattle.sqlite.specs.{Held.state, State.HasCleanDisk};
    ghost use Rattle.office_tables_statements.specs.{Stored.content_now, Calls.IsHonest};
    ghost use Rattle.office_tables.specs.SqlShelf.{MayLeave};

    ghost content = { λ s. content_now (state S.Store s.conn) };

    ghost is_clean = { λ s. HasCleanDisk (state S.Store s.conn) };

    ghost is_honest = { λ s. IsHonest (state S.Store s.conn) };

    ghost may_leave = { λ s tables. MayLeave (state S.Store s.conn) tables };

    ghost written = { λ s. s.counts };

    fn intersection(
        &mut self,
        alloc: Global,
        id: InterId,
    ) -> Result<Option<IntersectionRow>, ShelfFault> {
        stored_row::find(alloc, &mut self.conn, id, params![id.get()])
    }

    fn intersections(
        &mut self,
        alloc: Global,
    ) -> Result<Vec<(InterId, IntersectionRow)>, ShelfFault> {
        each_row::list(alloc, &mut self.conn, (), params![])
    }

    fn timing_rows(&mut self, alloc: Global, id: InterId) -> Result<Vec<Row>, ShelfFault> {
        each_row::list(alloc, &mut self.conn, id, params![id.get()])
    }

    fn committed_count(&mut self, _alloc: Global, id: InterId) -> Result<usize, ShelfFault> {
        let count = plan::count(&mut self.conn, id)?;
        Ok(count)
    }

    fn draft_rows(&mut self, alloc: Global, id: InterId) -> Result<Vec<Change>, ShelfFault> {
        each_row::list(alloc, &mut self.conn, id, params![id.get()])
    }

    fn record_at(
        &mut self,
        alloc: Global,
        key: &RegisterKey<'_>,
    ) -> Result<Option<RegisterRecord>, ShelfFault> {
        register::record_at(alloc, &mut self.conn, key)
    }

    fn inspections(&mut self, alloc: Global, id: InterId) -> Result<Vec<Inspection>, ShelfFault> {
        each_row::list(alloc, &mut self.conn, id, params![id.get()])
    }

    fn last_inspections(&mut self, alloc: Global) -> Result<BTreeMap<InterId, Day>, ShelfFault> {
        each_row::last_days(alloc, &mut self.conn)
    }

    fn orders(&mut self, alloc: Global, id: InterId) -> Result<Vec<Order>, ShelfFault> {
        each_row::list(alloc, &mut self.conn, id, params![id.get()])
    }

    fn open_orders(&mut self, alloc: Global) -> Result<BTreeMap<InterId, Vec<Order>>, ShelfFault> {
        each_row::open_orders(alloc, &mut self.conn)
    }

    fn used_lines(&mut self, alloc: Global, id: InterId) -> Result<Vec<UsedLine>, ShelfFault> {
        each_row::list(alloc, &mut self.conn, id, params![id.get()])
    }

    fn parts(&mut self, alloc: Global) -> Result<Vec<(PartCode, Hand)>, ShelfFault> {
        each_row::list(alloc, &mut self.conn, (), params![])
    }

    fn apply(&mut self, alloc: Global, changes: &[RowChange]) -> Result<(), ShelfFault> {
        change::apply(alloc, &mut self.conn, changes)?;
        self.counts.count_all(changes);
        Ok(())
    }

    fn writes(&self, table: Table) -> u64 {
        self.counts.of(table)
    }

    ghost honest_is_clean = { λ _ honest. honest.0 };
}
