//! Which maintainers pass with which secrets, for `authority`, `judging` and `known`.

ghost use Rattle.std.specs.Prelude.{◌≡◌};
ghost use Rattle.std.specs.Option.{option_copied};
ghost use Rattle.rr_object.specs.Objects.{names_of};
ghost use Rattle.rr_auth.specs.Passing.{Tries, name_passes, names_pass};
ghost use Rattle.rr_auth.specs.Registries.{maintainer, some_is_unknown, seen_by};

use crate::book::Book;
use crate::secrets::Secrets;
use rr_number::Name;
use rr_object::Object;

/// The mntner of the name; the object itself where it is added and is that one.
#[tactic(auto, using(crate::proofs::Seen::maintainer_seen))]
pub(crate) fn maintainer_seen<'a, B: Book>(
    book: &'a B,
    own: Option<&'a Object>,
    name: &Name,
) -> Option<&'a Object>
    ensures { option_copied result ≡ maintainer
        (seen_by (option_copied own.entry) (B.contents book.now)) name.now }
{
    match own {
        None => book.maintainer(name),
        Some(object) => {
            if object.key().is_mntner_of(name) {
                Some(object)
            } else {
                book.maintainer(name)
            }
        }
    }
}

/// Whether the name is that of a maintainer that passes.
pub(crate) fn name_passes<B: Book>(
    book: &B,
    own: Option<&Object>,
    secrets: &mut Secrets,
    name: &Name,
) -> bool
    ensures { Tries (name_passes (seen_by (option_copied own.entry) (B.contents book.now))
        secrets.old name.now) secrets.old secrets.new result }
{
    match maintainer_seen(book, own, name) {
        Some(maintainer) => secrets.fit(maintainer),
        None => false,
    }
}

/// Whether one of the names passes.
pub(crate) fn names_pass<B: Book>(
    book: &B,
    own: Option<&Object>,
    secrets: &mut Secrets,
    names: &[Name],
) -> bool
    ensures { Tries (names_pass (seen_by (option_copied own.entry) (B.contents book.now))
        secrets.old names.now) secrets.old secrets.new result }
{
    'names: for name in names {
        if name_passes(book, own, secrets, name) {
            return true;
        }
    }
    false
}

/// Whether the object names a maintainer that is not registered.
pub(crate) fn names_unknown<B: Book>(book: &B, own: Option<&Object>, object: &Object) -> bool
    ensures { result ≡ some_is_unknown
        (seen_by (option_copied own.entry) (B.contents book.now)) (names_of object.now) }
{
    object
        .maintainers_named()
        .any(|name| maintainer_seen(book, own, name).is_none())
}
