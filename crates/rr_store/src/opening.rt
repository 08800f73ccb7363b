//! The objects that the tables hold, read where a store is opened or migrated; or why the tables
//! are refused.

ghost use Rattle.rr_store.specs.Maps.{HasVersion};
ghost use Rattle.rr_store.specs.CheckParts.{HasNumberedMeta};
ghost use Rattle.rr_store.specs.Opening.{AreStoredAs, HoldNone};
ghost use Rattle.rr_store.specs.Opening.{RefusesTables};
ghost use Rattle.rr_store.specs.Versions.{version_text};
ghost use Rattle.rr_store.specs.LookParts.{IfSeen};
ghost use Rattle.rr_store.specs.Opening.{AreListed, InspectsWith};
ghost use Rattle.rr_store.specs.CheckParts.{HasBadRow};

use crate::checks::{check_named_table, check_objects, check_version};
use crate::idle_connection::IdleConnection;
use crate::meta_check::check_meta;
use crate::objects::in_order;
use crate::store_fault::OpenFault;
use crate::version::Version;
use rr_number::Name;
use rr_object::Object;
use sqlite::Alter;
use std::alloc::Global;

/// The objects whose rows `object` and `named` hold, whatever the version that `meta` says. The
/// fault is `BadRow`, or of a query, or that memory ran out.
fn checked_objects<S: Alter>(
    conn: &mut IdleConnection<S>,
    alloc: Global,
    source: &Name,
    version: Version,
) -> Result<Vec<Object>, OpenFault>
    ensures { IfSeen S.Store HasNumberedMeta conn.old (InspectsWith S.Store conn.old conn.new result
        (λ objects. AreListed source.now objects.items)
        (λ db objects. HasVersion (version_text version) db →
        AreStoredAs version source.now objects.items db)
        (HasBadRow (HoldNone version source.now))) }
{
    let objects = check_objects(conn, alloc, source, version)?;
    check_named_table(conn, alloc, &objects, version)?;
    in_order(objects)
}

/// The objects of the source that tables hold whose rows of `meta` have numbers of their own.
fn read_tables<S: Alter>(
    conn: &mut IdleConnection<S>,
    alloc: Global,
    source: &Name,
    version: Version,
) -> Result<Vec<Object>, OpenFault>
    ensures { IfSeen S.Store HasNumberedMeta conn.old (InspectsWith S.Store conn.old conn.new result
        (λ objects. AreListed source.now objects.items)
        (λ db objects. AreStoredAs version source.now objects.items db)
        (RefusesTables version source.now)) }
{
    check_version(conn, version)?;
    checked_objects(conn, alloc, source, version)
}

/// The objects of the source that tables of this version hold, in order of class and key. What the
/// faults say is as at `Store::old_objects`, for this version.
pub(crate) fn stored_objects<S: Alter>(
    conn: &mut IdleConnection<S>,
    alloc: Global,
    source: &Name,
    version: Version,
) -> Result<Vec<Object>, OpenFault>
    ensures { InspectsWith S.Store conn.old conn.new result
        (λ objects. AreListed source.now objects.items)
        (λ db objects. AreStoredAs version source.now objects.items db)
        (RefusesTables version source.now) }
{
    check_meta(conn)?;
    read_tables(conn, alloc, source, version)
}
