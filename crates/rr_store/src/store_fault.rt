//! Why a call on a store failed, and why none was made, opened or migrated. A desk hands these
//! faults on, and `rr_commands` has their messages.

use sqlite::{Error, ErrorCode};
use sqlite_resolve::CompileError;
use std::alloc::AllocError;

/// What is told of a database without the three tables: that a table is not there.
pub(crate) const NO_TABLES: Error = Error::SqlInputError(CompileError::NoSuchTable);

/// What is told of rows that no store has written.
pub(crate) const BAD_ROWS: Error = Error::SqliteFailure(ErrorCode::DatabaseCorrupt);

/// Why a call on a store failed. While the connection is open, its rows are as they were; if it is
/// shut, a later open finds the rows before or after the call.
#[derive(Clone, Copy, Debug, PartialEq, Eq)]
pub enum StoreFault {
    /// SQLite's own error, its lack of memory included; or the rows are not those of a store.
    Store(Error),
    /// Memory for objects and texts ran out.
    Memory,
}

impl From<AllocError> for StoreFault {
    ghost use Rattle.std.specs.Prelude.{◌≡◌};
    ghost use Rattle.rr_store.specs.declared.store_fault.StoreFault.TheVariants.{Memory};

    ghost from_gives = { λ _ fault. fault ≡ Memory };

    fn from(_refused: AllocError) -> StoreFault {
        StoreFault::Memory
    }
}

impl From<Error> for StoreFault {
    ghost use Rattle.std.specs.Prelude.{◌≡◌};
    ghost use Rattle.rr_store.specs.declared.store_fault.StoreFault.TheVariants.{Store};

    ghost from_gives = { λ error fault. fault ≡ Store error };

    fn from(error: Error) -> StoreFault {
        StoreFault::Store(error)
    }
}

/// Why no new store was made. While the connection is open, its rows are as they were; if it is
/// shut, a later open finds the rows before the call or those of the store.
#[derive(Clone, Copy, Debug, PartialEq, Eq)]
pub enum CreateFault {
    /// One of the three tables has a row.
    NotEmpty,
    /// SQLite's own error, its lack of memory included; or something stands, but not the three
    /// tables.
    Store(Error),
    /// Memory for objects and texts ran out.
    Memory,
}

impl From<StoreFault> for CreateFault {
    ghost use Rattle.std.specs.Prelude.{◌≡◌};
    ghost use Rattle.rr_store.specs.Faults.{create_fault};

    ghost from_gives = { λ refused fault. fault ≡ create_fault refused };

    fn from(refused: StoreFault) -> CreateFault {
        match refused {
            StoreFault::Store(error) => CreateFault::Store(error),
            StoreFault::Memory => CreateFault::Memory,
        }
    }
}

/// Why a store was not opened, or tables of version 1 were not read. No row was changed.
#[derive(Clone, Copy, Debug, PartialEq, Eq)]
pub enum OpenFault {
    /// A row of `meta` says this version, which is not the one asked for.
    WrongVersion(u32),
    /// No row of `meta` says another version of 32 bits. But the tables are not of the version
    /// asked for, or do not hold exactly the rows of objects of the source, no two of one key. A
    /// desk also says it of objects that are not a registry.
    BadRow,
    /// SQLite's own error, its lack of memory included; or the three tables are not there.
    Store(Error),
    /// Memory for objects and texts ran out.
    Memory,
}

impl From<AllocError> for OpenFault {
    ghost use Rattle.std.specs.Prelude.{◌≡◌};
    ghost use Rattle.rr_store.specs.declared.store_fault.OpenFault.TheVariants.{Memory};

    ghost from_gives = { λ _ fault. fault ≡ Memory };

    fn from(_refused: AllocError) -> OpenFault {
        OpenFault::Memory
    }
}

impl From<Error> for OpenFault {
    ghost use Rattle.std.specs.Prelude.{◌≡◌};
    ghost use Rattle.rr_store.specs.declared.store_fault.OpenFault.TheVariants.{Store};

    ghost from_gives = { λ error fault. fault ≡ Store error };

    fn from(error: Error) -> OpenFault {
        OpenFault::Store(error)
    }
}

/// Why tables were not migrated. While the connection is open, its rows are as they were; if it is
/// shut, a later open finds the rows before the call or the new ones.
#[derive(Clone, Copy, Debug, PartialEq, Eq)]
pub enum MigrateFault {
    /// A row of `meta` says this version, which is not 1.
    WrongVersion(u32),
    /// No row of `meta` says a version of 32 bits other than 1. But the tables are not of version
    /// 1, or do not hold exactly the rows of objects of the source, no two of one key. A desk also
    /// says it of objects that are not a registry.
    BadRow,
    /// The tables are of version 1 and hold exactly the rows of such objects, and the root's mntner
    /// is not among these.
    NoRoot,
    /// SQLite's own error, its lack of memory included; or the three tables are not there.
    Store(Error),
    /// Memory for objects and texts ran out.
    Memory,
}

impl From<AllocError> for MigrateFault {
    ghost use Rattle.std.specs.Prelude.{◌≡◌};
    ghost use Rattle.rr_store.specs.declared.store_fault.MigrateFault.TheVariants.{Memory};

    ghost from_gives = { λ _ fault. fault ≡ Memory };

    fn from(_refused: AllocError) -> MigrateFault {
        MigrateFault::Memory
    }
}

impl From<StoreFault> for MigrateFault {
    ghost use Rattle.std.specs.Prelude.{◌≡◌};
    ghost use Rattle.rr_store.specs.Faults.{migrate_fault};

    ghost from_gives = { λ refused fault. fault ≡ migrate_fault refused };

    fn from(refused: StoreFault) -> MigrateFault {
        match refused {
            StoreFault::Store(error) => MigrateFault::Store(error),
            StoreFault::Memory => MigrateFault::Memory,
        }
    }
}

impl From<OpenFault> for MigrateFault {
    ghost use Rattle.std.specs.Prelude.{◌≡◌};
    ghost use Rattle.rr_store.specs.Faults.{unread_fault};

    ghost from_gives = { λ refused fault. fault ≡ unread_fault refused };

    fn from(refused: OpenFault) -> MigrateFault {
        match refused {
            OpenFault::WrongVersion(number) => MigrateFault::WrongVersion(number),
            OpenFault::BadRow => MigrateFault::BadRow,
            OpenFault::Store(error) => MigrateFault::Store(error),
            OpenFault::Memory => MigrateFault::Memory,
        }
    }
}
