//! The laws of one item: what the holders of a prefix hold is changed by nobody else, and they are
//! answered as in a registry that nobody else uses. `Holdings` defines who holds a prefix, what is
//! held, and which items are foreign or own. An item is well formed where the key of an object that
//! it submits is; of a deletion nothing is asked. Nothing calls these functions.

ghost use Rattle.rr_auth.specs.Registries.{Sound};
ghost use Rattle.rr_registry.specs.HoldingExample.{example_holding, example_registry};
ghost use Rattle.rr_registry.specs.Holdings.{IsHeld};
ghost use Rattle.rr_registry.specs.ConfinementLaws.{ForeignItemsLeave, OwnItemsAreAlike};

/// A prefix is held in a sound registry, and a well-formed item comes with no secret that fits a
/// mntner of the holders. Then the item leaves what is held as it was, and the prefix held.
pub fn foreign_items_leave_what_is_held()
    ensures { ForeignItemsLeave }
{}

/// Where two sound registries agree on what is held, and the prefix is held in both, a well-formed
/// item of the holders' own has the same verdict in both. It comes with the same secrets, leaves
/// the registries agreeing, and leaves the prefix held in both.
pub fn own_items_are_judged_alike()
    ensures { OwnItemsAreAlike }
{}

/// There are registries of which the laws speak: that of the worked example is sound, and in it
/// A-MNT holds 10.1.0.0/16, with AS1.
pub fn the_example_is_held()
    ensures sound { Sound example_registry }
    ensures held { IsHeld example_holding example_registry }
{}
