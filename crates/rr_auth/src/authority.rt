//! Which maintainers decide below an object, and whether they pass. `judging` asks it for verdicts.

ghost use Rattle.std.specs.Prelude.{◌≡◌, ◌&&◌, map, filter};
ghost use Rattle.std.specs.List.{list_any};
ghost use Rattle.rr_number.specs.Prefixes.{PrefixParts};
ghost use Rattle.rr_number.specs.Ranges.{admits};
ghost use Rattle.rr_auth.specs.Authority.{grants, is_aut_num, lower_of, lower_passes};
ghost use Rattle.rr_auth.specs.Authority.{routes_of, routes_pass};
ghost use Rattle.rr_auth.specs.Passing.{Tries, name_passes, names_pass};
ghost use Rattle.rr_auth.specs.Private.{names_among};

use crate::book::Book;
use crate::passing::{name_passes, names_pass};
use crate::secrets::Secrets;
use rr_number::{Name, Prefix, Range};
use rr_object::{Grant, Key, Object};

/// The names that decide below the object: its mnt-lower where that has a name, otherwise its
/// mnt-by (RFC 2725, 9).
fn lower_names(object: &Object) -> &[Name]
    ensures { result.now ≡ lower_of object.now }
{
    if object.lower().is_empty() {
        object.maintainers()
    } else {
        object.lower()
    }
}

/// Whose names decide about routes below an object.
enum RouteNames<'a> {
    /// Those whose entries of mnt-routes grant the route's prefix.
    Granted(&'a [Grant]),
    /// These, whatever the prefix.
    Named(&'a [Name]),
}

/// Who decides about routes below the object: the entries of its mnt-routes where it has any;
/// otherwise the mnt-by of an aut-num, and of another object `lower_names` (RFC 2725, 9; profile).
fn names_for_routes(object: &Object) -> RouteNames<'_>
    ensures { (p : PrefixParts) → names_among p result ≡ routes_of object.now p }
{
    if !object.routes().is_empty() {
        RouteNames::Granted(object.routes())
    } else if is_aut_num(object.key()) {
        RouteNames::Named(object.maintainers())
    } else {
        RouteNames::Named(lower_names(object))
    }
}

/// Whether an entry of mnt-routes grants the prefix.
fn grants_prefix(entry: &Grant, prefix: Prefix) -> bool
    ensures { result ≡ grants prefix entry.now }
{
    entry.any() || some_range_admits(entry.ranges(), prefix)
}

fn some_range_admits(ranges: &[Range], prefix: Prefix) -> bool
    ensures { result ≡ list_any (λ range. admits range prefix) ranges.now }
{
    ranges.iter().any(|range| range.admits(prefix))
}

fn is_aut_num(key: &Key) -> bool
    ensures { result ≡ is_aut_num key.now }
{
    matches!(key, Key::AutNum(_))
}

/// Whether the names that decide below the object pass.
pub(crate) fn lower_passes<B: Book>(book: &B, secrets: &mut Secrets, object: &Object) -> bool
    ensures { Tries (lower_passes (B.contents book.now) secrets.old object.now)
        secrets.old secrets.new result }
{
    names_pass(book, None, secrets, lower_names(object))
}

/// Whether the names that decide about routes of the prefix below the object pass.
pub(crate) fn routes_pass<B: Book>(
    book: &B,
    secrets: &mut Secrets,
    object: &Object,
    prefix: Prefix,
) -> bool
    ensures { Tries (routes_pass (B.contents book.now) secrets.old prefix object.now)
        secrets.old secrets.new result }
{
    match names_for_routes(object) {
        RouteNames::Granted(entries) => some_grant_passes(book, secrets, entries, prefix),
        RouteNames::Named(names) => names_pass(book, None, secrets, names),
    }
}

/// Whether the name of an entry that grants the prefix passes.
#[tactic(auto, using(crate::proofs::Seen::passes_granted))]
fn some_grant_passes<B: Book>(
    book: &B,
    secrets: &mut Secrets,
    entries: &[Grant],
    prefix: Prefix,
) -> bool
    ensures { Tries (names_pass (B.contents book.now) secrets.old
        (map (λ g. g.name) (filter (grants prefix) entries.now))) secrets.old secrets.new result }
{
    some_entry_passes(book, secrets, entries, prefix)
}

/// The same, entry by entry.
fn some_entry_passes<B: Book>(
    book: &B,
    secrets: &mut Secrets,
    entries: &[Grant],
    prefix: Prefix,
) -> bool
    ensures { Tries (list_any
        (λ g. grants prefix g && name_passes (B.contents book.now) secrets.old g.name) entries.now)
        secrets.old secrets.new result }
{
    'entries: for entry in entries {
        if entry_passes(book, secrets, entry, prefix) {
            return true;
        }
    }
    false
}

/// Whether the entry grants the prefix and its name passes.
fn entry_passes<B: Book>(book: &B, secrets: &mut Secrets, entry: &Grant, prefix: Prefix) -> bool
    ensures { Tries (grants prefix entry.now && name_passes (B.contents book.now) secrets.old
        entry.now.name) secrets.old secrets.new result }
{
    grants_prefix(entry, prefix) && name_passes(book, None, secrets, entry.name())
}
