//! Registries, and what items do to them. Desks and submissions decide items by `apply`; queries
//! and dumps read the lists, and `rr_answer` asks the book as well.

ghost use Rattle.std.specs.Prelude.{◌≡◌, ◌⊎◌, true, IfOk};
ghost use Rattle.std.specs.FinMap.{insert, remove, values};
ghost use Rattle.rr_auth.specs.declared.verdict.Verdict.TheVariants.{Add, Change, Delete};
ghost use Rattle.rr_auth.specs.Verdicts.{fits_item};
ghost use Rattle.rr_auth.specs.Laws.{IsItem};
ghost use Rattle.rr_registry.specs.ConfinementLaws.{LeavesOthers};
ghost use Rattle.rr_registry.specs.Private.{JudgesItem};
ghost use Rattle.rr_registry.specs.Runs.{IsCarriedOut, IsOutOfMemory, IsStep};

use crate::outcome::Outcome;
use rr_auth::{Item, Known, Secrets, Verdict, judge};
use rr_book::Keeper;
use rr_number::Span;
use rr_object::{Code, Key, Object};
use std::alloc::{AllocError, Global};
use std::marker::Model;

/// A registry, kept in a book; contracts see the finite map from keys to objects. It is always
/// sound: each object stands under its own key, which is well formed, and each maintainer that it
/// names is registered. No two inetnums cross, and no two as-blocks. It remembers whether the
/// secrets tried last passed the `mnt-by` of objects, which spares trying them again and changes no
/// verdict.
#[derive(Drop)]
pub struct Registry<B: Keeper> {
    book: B,
    known: Known,
}

impl<B: Keeper> Model for Registry<B> {
    ghost use Rattle.rr_auth.specs.Registries.{Reg};
    ghost use Rattle.std.specs.FinMap as map;
    ghost use Rattle.rr_object.specs.contracts.key.Key as key;
    ghost use Rattle.rr_object.specs.contracts.object.Object as object;

    ghost Value = { Reg };

    ghost coded = { map.code (key.the_row).coded (object.the_row).coded };

    ghost view = { λ a. B.contents a.book };

    ghost use Rattle.rr_registry.specs.Private.{IsKeptRegistry};

    ghost invariant = { λ a. IsKeptRegistry (B.contents a.book) a.known };
}

impl<B: Keeper> Registry<B> {
    ghost use Rattle.rr_auth.specs.Registries.{ListsOf, Sound};
    ghost use Rattle.rr_book.specs.Listings.{covering, inside};
    ghost use Rattle.rr_sets.specs.Lists.{lent};

    /// The registry of this book: the same map of objects. It has to be sound.
    pub(crate) fn of(alloc: Global, book: B) -> Registry<B>
        requires { Sound (B.contents book) }
        ensures { result ≡ B.contents book }
    {
        Registry {
            book,
            known: Known::new(alloc),
        }
    }

    /// The book of the registry, which has the same objects and answers other questions about them.
    /// The registry is sound.
    pub fn book(&self) -> &B
        ensures same { B.contents result.now ≡ self.now }
        ensures sound { Sound self.now }
    {
        &self.book
    }

    /// True: the registry is sound, as each is. `prove!` asks this where a proof needs it and the
    /// code does not.
    pub fn is_sound(&self) -> bool
        ensures always { result ≡ true }
        ensures sound { Sound self.now }
    {
        // A proof has the invariant where a field is read.
        let _ = &self.known;
        true
    }

    /// All objects, in the order of class and key; the error is that memory ran out. The registry
    /// is sound, after an error too.
    pub fn objects(&self, alloc: Global) -> Result<Vec<&Object>, AllocError>
        ensures { ListsOf self.now (λ objects. lent objects.items ≡ values self.now) result }
    {
        self.book.objects(alloc)
    }

    /// All inetnums and routes whose addresses cover the span, in the order of class and key; equal
    /// ones count. The error is that memory ran out.
    pub fn covering(&self, alloc: Global, span: Span) -> Result<Vec<&Object>, AllocError>
        ensures { IfOk result (λ found. lent found.items ≡ covering self.now span) }
    {
        self.book.covering(alloc, span)
    }

    /// All inetnums and routes whose addresses lie inside the span, in the order of class and key;
    /// equal ones count. The error is that memory ran out.
    pub fn inside(&self, alloc: Global, span: Span) -> Result<Vec<&Object>, AllocError>
        ensures { IfOk result (λ found. lent found.items ≡ inside self.now span) }
    {
        self.book.inside(alloc, span)
    }

    /// Does with the item what its verdict says, over this registry and these secrets, and returns
    /// the outcome (RFC 2725, 9; profile). If memory runs out the item is refused with E90 and
    /// nothing changes. Where a prefix is held and none of the secrets fits a holder's mntner, what
    /// is held (`Holdings`) stays as it was, and the prefix held. An object that is submitted has a
    /// well-formed key. The secrets stay as they were.
    #[tactic(auto, using(crate::proofs::Judged::carried_out))]
    pub fn apply(&mut self, alloc: Global, secrets: &mut Secrets, item: Item) -> Outcome
        ensures step { IsStep self.old secrets.old item result self.new }
        ensures leaves { LeavesOthers self.old secrets.old self.new }
        ensures formed { IsItem item }
        ensures same_secrets { secrets.new ≡ secrets.old }
    {
        let verdict = self.verdict(alloc, secrets, &item);
        match item {
            Item::Submit(object) => self.submit(alloc, verdict, object),
            Item::Delete(key) => self.delete(verdict, &key),
        }
    }

    /// The verdict on the item, which is a refusal with E90 if memory runs out. The registry is
    /// sound and stays as it was.
    fn verdict(&mut self, alloc: Global, secrets: &mut Secrets, item: &Item) -> Verdict
        ensures judged { JudgesItem self.old secrets.old item.now result secrets.new }
        ensures sound { Sound self.old }
        ensures same { self.new ≡ self.old }
    {
        match judge(alloc, &self.book, secrets, &mut self.known, item) {
            Ok(verdict) => verdict,
            Err(_) => Verdict::Refuse(Code::E90),
        }
    }

    /// Carries out the verdict on an object. If memory runs out, it is refused with E90, and
    /// nothing changes.
    fn submit(&mut self, alloc: Global, judged: Verdict, object: Object) -> Outcome
        requires added { judged ≡ Add → Sound (insert self.old object.key object) }
        requires changed { judged ≡ Change → Sound (insert self.old object.key object) }
        requires possible { fits_item (Item.Submit object) judged ≡ true }
        ensures { IsCarriedOut self.old judged (Item.Submit object) result self.new }
    {
        match judged {
            Verdict::Add => self.put(alloc, object, Outcome::Added),
            Verdict::Change => self.put(alloc, object, Outcome::Changed),
            Verdict::Unchanged => Outcome::Unchanged,
            Verdict::Refuse(code) => Outcome::Refused(code),
            // An object is never deleted by being submitted.
            Verdict::Delete => unreachable!(),
        }
    }

    /// Puts the object under its key, with this outcome. If memory runs out, it is refused with
    /// E90, and nothing changes.
    fn put(&mut self, alloc: Global, object: Object, done: Outcome) -> Outcome
        requires { Sound (insert self.old object.key object) }
        ensures { ((result ≡ done) × (self.new ≡ insert self.old object.key object))
            ⊎ IsOutOfMemory self.old result self.new }
    {
        self.known.forget(object.key());
        match self.book.insert(alloc, object) {
            Ok(()) => done,
            Err(_) => Outcome::Refused(Code::E90),
        }
    }

    /// Carries out the verdict on a deletion.
    fn delete(&mut self, judged: Verdict, key: &Key) -> Outcome
        requires deleted { judged ≡ Delete → Sound (remove self.old key.now) }
        requires possible { fits_item (Item.Delete key.now) judged ≡ true }
        ensures { IsCarriedOut self.old judged (Item.Delete key.now) result self.new }
    {
        match judged {
            Verdict::Delete => {
                self.known.forget(key);
                self.book.remove(key);
                Outcome::Deleted
            }
            Verdict::Refuse(code) => Outcome::Refused(code),
            // What is to be deleted is deleted or refused.
            Verdict::Add | Verdict::Change | Verdict::Unchanged => unreachable!(),
        }
    }
}
