//! A registry and the store of its rows, which change together: the ledger in a desk.

ghost use Rattle.std.specs.Prelude.{◌≡◌, false, true, OnErr, Some, is_some};
ghost use Rattle.std.specs.FinMap.{get};
ghost use Rattle.sqlite.specs.Held.{state};
ghost use Rattle.rr_store.specs.Maps.{HasRows};
ghost use Rattle.rr_store.specs.Calls.{IsOpen, IsSettled, OnCleanDisk, database};
ghost use Rattle.rr_desk.specs.Stops.{changes};
ghost use Rattle.rr_desk.specs.Private.{Follows, FollowsIn, IsStockOf, LeavesRest, error_of};
ghost use Rattle.rr_desk.specs.Private.{puts_one};
ghost use Rattle.rr_desk.specs.Rows.{KeepsRows};
ghost use Rattle.rr_desk.specs.Stocks.{StoresUntilStopped, stock_ledger};
ghost use Rattle.rr_desk.specs.Lasting.{stock_on, stock_still};

use rr_auth::{Book, Secrets};
use rr_index::IndexedBook;
use rr_object::{Key, Object};
use rr_registry::{Outcome, Registry};
use rr_store::{IdleConnection, Store, StoreFault};
use rr_submission::{KeyedItem, Ledger, Stopped};
use sqlite::{Alter, Error, ErrorCode};
use std::alloc::Global;
use std::marker::Model;

/// A registry with the store that keeps its rows. A fault of the store stops it: until then the
/// store holds the rows of the registry, and from then on the error of the database is kept.
#[derive(Drop)]
pub struct Stock<S: Alter> {
    registry: Registry<IndexedBook>,
    store: Store<S>,
    cause: Option<Error>,
}

impl<S: Alter> Model for Stock<S> {
    ghost use Rattle.rr_desk.specs.Stocks.{StockParts, stock_code, stock_of, StoresUntilStopped};

    ghost Value = { StockParts S };

    ghost coded = { stock_code S.code };

    ghost view = { λ s. stock_of s.registry s.store s.cause };

    ghost invariant = { λ s. StoresUntilStopped S.Store (stock_of s.registry s.store s.cause) };
}

impl<S: Alter> Stock<S> {
    /// A registry with a store that is open and holds its rows, which a stop leaves. No fault has
    /// stopped it.
    pub(crate) fn of(registry: Registry<IndexedBook>, store: Store<S>) -> Stock<S>
        requires is_open { IsOpen S.Store store }
        requires settled { IsSettled S.Store store }
        requires rows { OnCleanDisk S.Store store (HasRows registry (database S.Store store)) }
        ensures store { result.store ≡ store }
        ensures stock { IsStockOf S.Store registry result }
    {
        Stock {
            registry,
            store,
            cause: None,
        }
    }

    /// Whether a fault of the store stopped it. Until then, where the disk gives back what was
    /// written, the store is open and holds the rows of the registry and no others. A stop of the
    /// process leaves these.
    pub fn stopped(&self) -> bool
        ensures told { result ≡ self.now.stopped }
        ensures held { StoresUntilStopped S.Store self.now }
        ensures keeps { self.now.stopped ≡ false
            → KeepsRows self.now.registry (state S.Store self.now.store) }
    {
        self.cause.is_some()
    }

    /// The error of the database that stopped it. There is one exactly where it is stopped.
    pub fn cause(&self) -> Option<Error>
        ensures cause { result ≡ self.now.cause }
        ensures stopped { self.now.stopped ≡ is_some result }
    {
        self.cause
    }

    /// The registry.
    pub fn registry(&self) -> &Registry<IndexedBook>
        ensures { result.now ≡ self.now.registry }
    {
        &self.registry
    }

    /// Takes it apart and returns the connection, in no transaction, open or shut as it is; the
    /// rows stay.
    pub fn close(self) -> IdleConnection<S>
        ensures same { result ≡ self.store }
        ensures autocommit { result.in_transaction ≡ false }
    {
        let Stock { store, .. } = self;
        store.close()
    }
}

/// The registry is changed first, then the rows. A fault of the store stops both for good, also
/// where memory runs out, because the rows then lack what the registry has.
impl<S: Alter> Ledger for Stock<S> {
    ghost registry = { (stock_ledger S.Store).registry };

    ghost is_stopped = { (stock_ledger S.Store).is_stopped };

    ghost Stops = { (stock_ledger S.Store).Stops };

    ghost Lasts = { (stock_ledger S.Store).Lasts };

    ghost Kept = { (stock_ledger S.Store).Kept };

    // The two laws give the record of the store's ghosts part by part, because there `S.Store` is
    // none.
    ghost lasts_still = { stock_still (record {
      view = S.Store.view;
      faults = S.Store.faults;
      recovers = S.Store.recovers;
      is_shielded = S.Store.is_shielded;
      is_step = S.Store.is_step;
      blamed = S.Store.blamed;
      names = S.Store.names;
    }) };

    ghost lasts_on = { stock_on (record {
      view = S.Store.view;
      faults = S.Store.faults;
      recovers = S.Store.recovers;
      is_shielded = S.Store.is_shielded;
      is_step = S.Store.is_step;
      blamed = S.Store.blamed;
      names = S.Store.names;
    }) };

    fn stopped(&self) -> bool {
        prove!(self.registry.is_sound());
        self.cause.is_some()
    }

    fn decide(
        &mut self,
        alloc: Global,
        secrets: &mut Secrets,
        item: KeyedItem<'_>,
    ) -> Result<Outcome, Stopped> {
        let (key, item) = item.parts();
        let outcome = self.registry.apply(alloc, secrets, item);
        match follow(alloc, &self.registry, &mut self.store, key, outcome) {
            Ok(()) => Ok(outcome),
            Err(fault) => {
                keep_cause(&mut self.cause, fault);
                Err(Stopped)
            }
        }
    }
}

/// Keeps the error of a fault of the store as the cause of the stop.
fn keep_cause(cause: &mut Option<Error>, fault: StoreFault)
    ensures { cause.new ≡ Some (error_of fault) }
{
    *cause = Some(error_of(fault));
}

/// A fault of the store as the database's error: `Memory` is SQLite's `OutOfMemory`.
fn error_of(fault: StoreFault) -> Error
    ensures { result ≡ error_of fault }
{
    match fault {
        StoreFault::Store(error) => error,
        StoreFault::Memory => Error::SqliteFailure(ErrorCode::OutOfMemory),
    }
}

/// Makes the rows those of the registry after the item about this key that had this outcome. A
/// fault comes only of an item that changes the registry, and leaves the rows as they were while
/// the connection is open.
#[tactic(auto, using(crate::proofs::Following::rest_itself))]
fn follow<S: Alter>(
    alloc: Global,
    registry: &Registry<IndexedBook>,
    store: &mut Store<S>,
    key: &Key,
    outcome: Outcome,
) -> Result<(), StoreFault>
    requires { puts_one outcome ≡ true → is_some (get registry.now key.now) ≡ true }
    ensures follows { FollowsIn S.Store (Follows key.now outcome registry.now)
        store.old store.new result }
    ensures others { LeavesRest S.Store store.old store.new }
    ensures changing { OnErr result (changes outcome ≡ true) }
{
    match outcome {
        Outcome::Added => store.add(alloc, standing(registry, key)),
        Outcome::Changed => store.put(alloc, standing(registry, key)),
        Outcome::Deleted => store.remove(alloc, key),
        Outcome::Unchanged | Outcome::Refused(_) => Ok(()),
    }
}

/// The object that stands under the key, which has one: so `unwrap` meets no `None`.
fn standing<'a>(registry: &'a Registry<IndexedBook>, key: &Key) -> &'a Object
    requires { is_some (get registry.now key.now) ≡ true }
    ensures { get registry.now key.now ≡ Some result.now }
{
    registry.book().get(key).unwrap()
}
