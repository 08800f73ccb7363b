//! The end of a transaction: each write of the store commits by this, or is rolled back.

ghost use Rattle.std.specs.Prelude.{IsTrue, OnOk};
ghost use Rattle.sqlite.specs.Held.{state};
ghost use Rattle.rr_store.specs.Calls.{OnCleanDisk};
ghost use Rattle.rr_store.specs.StepParts.{EndsWork};

use crate::store_fault::StoreFault;
use sqlite::{Alter, Transaction};

/// Ends a transaction: commits it where its work was done, and else lets it go, which rolls it
/// back. It is under way where its work was done. The fault is that of the work or of the commit,
/// though no clause says which.
pub(crate) fn end<S: Alter>(
    tx: Transaction<'_, S>,
    work: Result<(), StoreFault>,
) -> Result<(), StoreFault>
    requires { OnCleanDisk S.Store tx.conn.now
        (OnOk work (IsTrue (state S.Store tx.conn.now).in_transaction)) }
    ensures { EndsWork S.Store tx.entry.conn.now tx.exit.0.now work result }
{
    work?;
    tx.commit()?;
    Ok(())
}
