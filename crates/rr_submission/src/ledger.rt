//! Ledgers: what keeps a registry and decides items. A submission is decided by one: a registry in
//! memory here, or the stock of a desk in `rr_desk`.

ghost use Rattle.std.specs.Prelude.{◌≡◌, ℕ, Bool, false, List, IfOk, OnOk, OnErr};
ghost use Rattle.rr_auth.specs.Registries.{Reg, Sound};
ghost use Rattle.rr_auth.specs.declared.item.Item.{Item};
ghost use Rattle.rr_registry.specs.Runs.{IsStep};
ghost use Rattle.rr_submission.specs.Ledgers.{Keeps};

use crate::keyed_item::KeyedItem;
use rr_auth::Secrets;
use rr_registry::{Keeper, Outcome, Registry};
use std::alloc::Global;

/// A ledger stopped at an item. What that leaves, and whether the ledger decides more, its `Stops`
/// says.
#[derive(Clone, Copy, Debug, PartialEq, Eq)]
pub struct Stopped;

/// What keeps a registry and decides items one by one.
pub trait Ledger {
    // The registry that it keeps.
    ghost registry: { Self → Reg };

    // It is stopped: it decides no more.
    ghost is_stopped: { Self → Bool };

    // What it leaves where it stops: of the ledger before, the secrets, the item, and the ledger
    // after.
    ghost Stops: { Self → List (List ℕ) → Item → Self → Type 0 };

    // What lasts whatever it decides: of the ledger before any items, and the ledger after them.
    ghost Lasts: { Self → Self → Type 0 };

    // What is true of it before and after each item, also where it stops at one.
    ghost Kept: { Self → Type 0 };

    /// Whether it is stopped. Its registry is sound and `Kept` is true of it, stopped or not.
    fn stopped(&self) -> bool
        ensures is { result ≡ is_stopped self.now }
        ensures sound { Sound (registry self.now) }
        ensures kept { Kept self.now };

    /// Decides an item that came with these secrets, as a step of its registry: the verdict on it
    /// is carried out. Or memory runs out: it is refused with E90 then, and nothing changes. The
    /// secrets stay. The ledger must run, and still does after `Ok`. The error is that it stopped
    /// at the item: `Stops` says what that leaves, and whether `is_stopped` is true then. In either
    /// case `Lasts` is true of the ledger before and after, and `Kept` of the ledger after.
    fn decide(
        &mut self,
        alloc: Global,
        secrets: &mut Secrets,
        item: KeyedItem<'_>,
    ) -> Result<Outcome, Stopped>
        requires running { is_stopped self.old ≡ false }
        ensures decides { IfOk result (λ outcome. IsStep
            (registry self.old) secrets.old item.entry outcome (registry self.new)) }
        ensures running { OnOk result (is_stopped self.new ≡ false) }
        ensures stops { OnErr result (Stops self.old secrets.old item.entry self.new) }
        ensures keeps { Keeps Lasts Kept self.old self.new }
        ensures same_secrets { secrets.new ≡ secrets.old };

    // It lasts where nothing is decided.
    ghost lasts_still: { (ledger : Self) → Lasts ledger ledger };

    // What lasts through some items, and through those after them, lasts through all.
    ghost lasts_on: { (before between after : Self) → Lasts before between → Lasts between after
        → Lasts before after };
}

/// A registry in memory decides each item by itself, and never stops. Nothing but the registry is
/// said of it.
impl<B: Keeper> Ledger for Registry<B> {
    ghost registry = { λ kept. kept };

    ghost is_stopped = { λ kept. false };

    ghost Stops = { λ before secrets item after. ⊥ };

    ghost Lasts = { λ before after. Unit {0} };

    ghost Kept = { λ kept. Unit {0} };

    ghost lasts_still = { λ ledger. tt };

    ghost lasts_on = { λ before between after first second. tt };

    fn stopped(&self) -> bool {
        prove!(self.is_sound());
        false
    }

    fn decide(
        &mut self,
        alloc: Global,
        secrets: &mut Secrets,
        item: KeyedItem<'_>,
    ) -> Result<Outcome, Stopped> {
        let (_key, item) = item.parts();
        Ok(self.apply(alloc, secrets, item))
    }
}
