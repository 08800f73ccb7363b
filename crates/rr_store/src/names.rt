//! The maintainers that an object names, each once: `named` has a row for each. `entry`, `namings`,
//! `leaving_names` and `row_streams` ask for them. `tools/irr/local/tables.py` adds rows in the
//! same order: rows in another order are sorted each time that the database is opened.

ghost use Rattle.std.specs.Prelude.{◌≡◌, IfOk};
ghost use Rattle.rr_object.specs.Objects.{names_of};
ghost use Rattle.rr_store.specs.Entries.{once};

use rr_number::Name;
use rr_object::Object;
use std::alloc::{AllocError, Global};
use std::collections::BTreeSet;

/// The maintainers that the object names, as often as it names them. The error is that memory ran
/// out, here and below.
fn named(alloc: Global, object: &Object) -> Result<Vec<Name>, AllocError>
    ensures { IfOk result (λ names. names.items ≡ names_of object.now) }
{
    let mut all = Vec::new(alloc);
    for name in object.maintainers_named() {
        all.push(name.copy(alloc)?)?;
    }
    Ok(all)
}

/// The names of a list, each once: a name stands where it is last named.
fn each_once(alloc: Global, names: &[Name]) -> Result<Vec<Name>, AllocError>
    ensures { IfOk result (λ kept. kept.items ≡ once names.now) }
{
    let mut seen = BTreeSet::new(alloc);
    let mut kept = Vec::new(alloc);
    for name in names.iter().rev() {
        if seen.insert(name)? {
            kept.push(name.copy(alloc)?)?;
        }
    }
    kept.reverse();
    Ok(kept)
}

/// The maintainers that the object names, each once however often it names them. The error is that
/// memory ran out.
pub(crate) fn maintainers_of(alloc: Global, object: &Object) -> Result<Vec<Name>, AllocError>
    ensures { IfOk result (λ names. names.items ≡ once (names_of object.now)) }
{
    let all = named(alloc, object)?;
    if all.len() < 2 {
        return Ok(all);
    }
    each_once(alloc, &all)
}
