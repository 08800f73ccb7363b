//! Whether the mnt-by of registered objects passes, remembered as long as the secrets stay.
//! `rr_registry` keeps it from item to item, and `judging` asks it.
//!
//! An object may name 15,000 maintainers, and each of the 3,000 items of a short submission may
//! ask them. So it is remembered whether the mnt-by of an object passes, with a copy of the
//! secrets that were tried, because other secrets may come with the next item.

ghost use Rattle.std.specs.Prelude.{◌≡◌, ◌↔◌, Some, IfOk, IfSome, IsTrue, OnOk};
ghost use Rattle.std.specs.FinMap.{get};
ghost use Rattle.rr_auth.specs.Known.{Forgets, IsKnown, IsSeen};
ghost use Rattle.rr_auth.specs.Passing.{Tries, names_pass};
ghost use Rattle.rr_auth.specs.Registries.{Reg};

use crate::book::Book;
use crate::passing::names_pass;
use crate::secret::Secret;
use crate::secrets::Secrets;
use rr_object::{Key, Object};
use std::alloc::{AllocError, Global};
use std::collections::BTreeMap;

/// So few names are asked anew, and so many secrets are compared in the time of one name.
const FEW: usize = 16;

/// Whether the mnt-by of objects of a registry passes with some secrets, by the keys of these
/// objects. When memory runs out, an answer is not remembered, and is found again.
#[derive(Drop)]
pub struct Known {
    alloc: Global,
    secrets: Vec<Secret>,
    answers: BTreeMap<Key, bool>,
}

impl Known {
    /// Nothing is known yet. The clause says only that all that is known is true of any registry.
    #[tactic(auto, using(crate::proofs::Knowing::nothing_known))]
    pub fn new(alloc: Global) -> Known
        ensures { (r : Reg) → IsKnown r result }
    {
        Known {
            alloc,
            secrets: Vec::new(alloc),
            answers: BTreeMap::new(alloc),
        }
    }

    /// Forgets what may be otherwise once the object of this key was added, changed or deleted. If
    /// what was known is true of a registry, what is known then is true of each that differs from
    /// it at most under the key. No clause says what is kept.
    pub fn forget(&mut self, key: &Key)
        ensures { Forgets key.now self.old self.new }
    {
        match key {
            Key::Mntner(_) => self.answers.clear(),
            _ => {
                let _ = self.answers.remove(key);
            }
        }
    }

    /// Whether the mnt-by of the object, which stands under this key, passes. The secrets stay as
    /// they were. What is known has to be true of the registry, and what is known then still is.
    #[tactic(auto, using(crate::proofs::Knowing::seen_of))]
    pub(crate) fn passes<B: Book>(
        &mut self,
        book: &B,
        secrets: &mut Secrets,
        key: &Key,
        stored: &Object,
    ) -> bool
        requires stored { get (B.contents book.now) key.now ≡ Some stored.now }
        requires known { IsKnown (B.contents book.now) self.old }
        ensures answer { Tries (names_pass (B.contents book.now) secrets.old stored.now.maintainers)
            secrets.old secrets.new result }
        ensures known { IsKnown (B.contents book.now) self.new }
    {
        let names = stored.maintainers();
        if !is_worth_knowing(names.len(), secrets.as_slice().len()) {
            return names_pass(book, None, secrets, names);
        }
        match self.answer(secrets, key) {
            Some(passes) => passes,
            None => {
                let passes = names_pass(book, None, secrets, names);
                // Without memory for it the names are asked again, with the same answer.
                let _ = self.put(secrets, key, passes);
                passes
            }
        }
    }

    /// What the mnt-by of the object of the key answered these secrets, if that is remembered.
    fn answer(&self, secrets: &Secrets, key: &Key) -> Option<bool>
        ensures { (r : Reg) → IsKnown r self.now → IfSome result (IsSeen r secrets.now key.now) }
    {
        if !are_secrets(&self.secrets, secrets.as_slice()) {
            return None;
        }
        self.answers.get(key).copied()
    }

    /// Puts the answer to these secrets under the key; the error is out of memory.
    fn put(&mut self, secrets: &Secrets, key: &Key, passes: bool) -> Result<(), AllocError>
        ensures { (r : Reg) → IsSeen r secrets.now key.now passes
            → IsKnown r self.old → IsKnown r self.new }
    {
        let key = key.copy(self.alloc)?;
        self.turn_to(secrets.as_slice())?;
        self.answers.insert(key, passes)?;
        Ok(())
    }

    /// Forgets what was answered to other secrets than these; the error is out of memory.
    fn turn_to(&mut self, secrets: &[Secret]) -> Result<(), AllocError>
        ensures known { (r : Reg) → IsKnown r self.old → IsKnown r self.new }
        ensures ok { OnOk result (self.new.secrets.items ≡ secrets.now) }
    {
        if are_secrets(&self.secrets, secrets) {
            return Ok(());
        }
        let copies = copy_secrets(self.alloc, secrets)?;
        self.answers.clear();
        self.secrets = copies;
        Ok(())
    }
}

/// Whether an answer of so many names to so many secrets is found sooner than it is made again.
fn is_worth_knowing(names: usize, secrets: usize) -> bool {
    names > FEW && secrets / FEW <= names
}

/// Copies of the secrets; the error is out of memory.
fn copy_secrets(alloc: Global, secrets: &[Secret]) -> Result<Vec<Secret>, AllocError>
    ensures { IfOk result (λ copies. copies.items ≡ secrets.now) }
{
    let mut copies = Vec::with_capacity(alloc, secrets.len())?;
    for secret in secrets {
        let copy = Secret::new(alloc, secret.as_bytes())?;
        copies.push(copy)?;
    }
    Ok(copies)
}

/// Whether these are copies of the secrets, in their order.
fn are_secrets(copies: &[Secret], secrets: &[Secret]) -> bool
    ensures { IsTrue result ↔ (copies.now ≡ secrets.now) }
{
    if copies.len() != secrets.len() {
        return false;
    }
    'secrets: for i in 0..secrets.len() {
        if !copies[i].is_same(&secrets[i]) {
            return false;
        }
    }
    true
}
