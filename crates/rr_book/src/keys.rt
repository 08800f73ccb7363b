//! How keys are compared in the list of a plain book: for `object_lists`.

ghost use Rattle.std.specs.Prelude.{◌≡◌};
ghost use Rattle.std.specs.Ordering.{eq_by_cmp};
ghost use Rattle.rr_object.specs.KeyOrders.{key_cmp};

use rr_object::Key;
use std::cmp::Ordering;

/// How the first key stands to the other in the order of keys: by class, then by key.
#[tactic(auto, using(rr_object::proofs::DerivedOrder::derived_order))]
pub(crate) fn compare(key: &Key, other: &Key) -> Ordering
    ensures { result ≡ key_cmp key.now other.now }
{
    key.cmp(other)
}

/// Whether the keys compare as equal in the order of keys.
pub(crate) fn is_same(key: &Key, other: &Key) -> bool
    ensures { result ≡ eq_by_cmp key_cmp key.now other.now }
{
    compare(key, other).is_eq()
}
