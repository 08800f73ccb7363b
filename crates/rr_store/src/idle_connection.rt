//! A connection in no transaction: what the calls that make, open or migrate a store take, and a
//! closed store gives back. The diagnosis of `rr_commands` asks it why a database is refused.

ghost use Rattle.std.specs.Prelude.{◌≡◌, false, IfErr, IfOk, IsTrue};
ghost use Rattle.sqlite.specs.Held.{state};
ghost use Rattle.sqlite.specs.State.{Survives};
ghost use Rattle.rr_store.specs.Asking.{QueryFails, QueryShows};
ghost use Rattle.rr_store.specs.Calls.{IsSettled, OnCleanDisk};

use sqlite::{Alter, Connection, Error, Row};
use sqlite_schema::schema::Schema;
use std::marker::Model;

/// A connection to SQLite in no transaction; a contract sees the connection. Where the disk has
/// returned what was written, one that is shut stays so, and a call shuts one only where the disk
/// failed or refused. No call forgets a fault of the disk. The limit of steps stays, and reads that
/// are tested against a digest still are.
#[derive(Drop)]
pub struct IdleConnection<S: Alter> {
    pub(crate) inner: Connection<S>,
}

impl<S: Alter> Model for IdleConnection<S> {
    ghost use Rattle.std.specs.Prelude.{◌≡◌, false};
    ghost use Rattle.sqlite.specs.Held.{Held, held_code};

    ghost Value = { Held S };

    ghost coded = { held_code S.code };

    ghost view = { λ c. c.inner };

    ghost invariant = { λ c. c.inner.in_transaction ≡ false };
}

impl<S: Alter> IdleConnection<S> {
    /// The same connection, which must be in no transaction; one that was just opened is in none.
    pub fn of(conn: Connection<S>) -> IdleConnection<S>
        requires { conn.in_transaction ≡ false }
        ensures { result ≡ conn }
    {
        IdleConnection { inner: conn }
    }

    /// The connection, in no transaction.
    pub fn into_connection(self) -> Connection<S>
        ensures same { result ≡ self }
        ensures autocommit { result.in_transaction ≡ false }
    {
        let IdleConnection { inner } = self;
        inner
    }

    /// The tables, indexes and views that it sees.
    pub fn schema(&self) -> &Schema
        ensures { result.now ≡ self.now.schema }
    {
        self.inner.schema()
    }

    /// The rows that a query without parameters shows of the database as it stands, or why SQLite
    /// shows none. It is asked in a transaction of its own, which is then rolled back; of that,
    /// clauses speak only after an error. The connection is in no transaction then, and a stop
    /// leaves what one before the call left. What is said of rows, errors and a stop is true where
    /// the disk has returned what was written.
    pub fn ask(&mut self, query: &str) -> Result<Vec<Row>, Error>
        ensures autocommit { self.new.in_transaction ≡ false }
        ensures crash { Survives (state S.Store self.old) (state S.Store self.new) (λ _. ⊥) }
        ensures shown { OnCleanDisk S.Store self.new (IfOk result (λ rows.
            QueryShows S.Store query.now self.old rows.items)) }
        ensures refused { OnCleanDisk S.Store self.new (IfErr result
            (QueryFails S.Store query.now self.old self.new)) }
    {
        let mut tx = self.inner.transaction();
        let rows = tx.query_all(query, &[]);
        tx.rollback();
        rows
    }

    /// Tells the caller's proof that the connection is in no transaction.
    pub fn note_idle(&self)
        ensures { self.now.in_transaction ≡ false }
    {
        let _ = &self.inner;
    }

    /// Tells the caller's proof that, while the connection is open, the rows are those last
    /// committed, and a stop leaves no others.
    pub(crate) fn note_committed(&self)
        ensures committed { IsTrue (state S.Store self.now).is_open
            → (state S.Store self.now).now ≡ (state S.Store self.now).committed }
        ensures settled { IsSettled S.Store self.now }
    {
        let _ = self.inner.is_autocommit();
    }
}
