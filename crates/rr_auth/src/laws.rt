//! Laws of verdicts and of what is closest, for readers and for the proofs of other crates. Nothing
//! calls these functions.

ghost use Rattle.rr_auth.specs.Laws.{ClosestRoutesAgree, NothingClosestIsUncovered};
ghost use Rattle.rr_auth.specs.Laws.{OneClosestBlock, OneClosestInetnum, RefusalLeaves};
ghost use Rattle.rr_auth.specs.Laws.{RoutesAskTheClosest, SecretsAreASet, StaysOfSource};
ghost use Rattle.rr_auth.specs.Laws.{StaysSound, StoredNamesDecide, VerdictsFitItems};

/// An item that is refused leaves the registry as it was.
#[tactic(auto, using(crate::proofs::Steps::refusal_leaves))]
pub fn refused_items_change_nothing()
    ensures { RefusalLeaves }
{}

/// A sound registry stays sound, whatever item comes whose object, if it submits one, has a key
/// that is well formed.
#[tactic(auto, using(crate::proofs::Steps::stays_sound))]
pub fn registries_stay_sound()
    ensures { StaysSound }
{}

/// A registry of a source stays one, whatever item comes that is read in that source. Such a
/// registry is sound, and each object in it is what its paragraph reads as in the source. Such an
/// item submits an object that is what its paragraph reads as there, or deletes one. In either case
/// the key is well formed.
pub fn registries_stay_of_their_source()
    ensures { StaysOfSource }
{}

/// The verdict on an item that submits an object is never a deletion. The verdict on an item that
/// deletes one is never an addition, a change or no change.
pub fn verdicts_fit_their_items()
    ensures { VerdictsFitItems }
{}

/// An item about a registered key is refused where the mnt-by of what stands there does not pass,
/// whatever the item names in its place (RFC 2725, 9).
pub fn what_stands_is_touched_by_its_own_maintainers()
    ensures { StoredNamesDecide }
{}

/// Secrets are a set: a verdict depends on which are given, and on nothing else of their list.
#[tactic(auto, using(crate::proofs::SecretSets::secrets_are_a_set))]
pub fn only_which_secrets_are_given_matters()
    ensures { SecretsAreASet }
{}

/// In a sound registry a span has one closest inetnum at most: each that is closest is that of
/// `closest_inetnum`.
pub fn closest_inetnums_are_one()
    ensures { OneClosestInetnum }
{}

/// In a sound registry a span has one closest as-block at most: each that is closest is that of
/// `closest_block`.
pub fn closest_blocks_are_one()
    ensures { OneClosestBlock }
{}

/// In a sound registry all closest routes to a prefix have one prefix, that of
/// `closest_route_prefix`.
pub fn closest_routes_have_one_prefix()
    ensures { ClosestRoutesAgree }
{}

/// In every registry a span has no closest inetnum exactly where no inetnum covers it. The same
/// holds of as-blocks, and of a prefix and the routes that cover it.
pub fn nothing_closest_is_uncovered()
    ensures { NothingClosestIsUncovered }
{}

/// In a sound registry E13 holds of a route exactly in two cases. Some route covers it, and no
/// closest route authorises it; or no route covers it, and no closest inetnum authorises it.
pub fn routes_ask_the_closest_routes_or_inetnum()
    ensures { RoutesAskTheClosest }
{}
