//! Registries, as verdicts ask about them: each book implements this trait. `rr_sets` and
//! `rr_answer` ask by it too.

ghost use Rattle.std.specs.Prelude.{◌≡◌, IfOk};
ghost use Rattle.std.specs.Option.{option_copied};
ghost use Rattle.std.specs.List.Sorted.{IsStrictlySortedBy};
ghost use Rattle.std.specs.Ordering.{nat_cmp};

use rr_number::{AsNumber, Name, Prefix, Span};
use rr_object::{Key, Object};
use std::alloc::{AllocError, Global};

/// One registry, which is a finite map from keys to objects. What the ghost `contents` has is
/// registered, and each call answers over it. The registry is sound: each object stands under its
/// own key, which is well formed, and each maintainer that an object names is registered. Also no
/// two inetnums cross, and no two as-blocks. Of the calls only `origins` takes memory.
pub trait Book {
    ghost use Rattle.rr_auth.specs.Registries.{LooksUp, Reg, Sound, maintainer, is_named};
    ghost use Rattle.rr_auth.specs.Conditions.{crosses_registered};
    ghost use Rattle.rr_auth.specs.Closest.{closest_inetnum, closest_block, closest_route_prefix};
    ghost use Rattle.rr_auth.specs.Closest.{origins};

    // the registry that the book is
    ghost contents: { Self → Reg };

    /// The object of the key, if one is registered under it. The registry is sound, as the trait
    /// says.
    fn get(&self, key: &Key) -> Option<&Object>
        ensures { LooksUp (contents self.now) key.now (option_copied result) };

    /// The mntner of the name, if it is registered.
    fn maintainer(&self, name: &Name) -> Option<&Object>
        ensures { option_copied result ≡ maintainer (contents self.now) name.now };

    /// The smallest registered inetnum that covers the span, if any does; an equal one counts
    /// (RFC 2725, 9).
    fn closest_inetnum(&self, span: Span) -> Option<&Object>
        ensures { option_copied result ≡ closest_inetnum (contents self.now) span };

    /// The smallest registered as-block that covers the span, if any does; an equal one counts
    /// (RFC 2725, 9).
    fn closest_block(&self, span: Span) -> Option<&Object>
        ensures { option_copied result ≡ closest_block (contents self.now) span };

    /// The prefix of the smallest registered routes that cover the prefix, if any do; an equal one
    /// counts (RFC 2725, 9).
    fn closest_route_prefix(&self, prefix: Prefix) -> Option<Prefix>
        ensures { result ≡ closest_route_prefix (contents self.now) prefix };

    /// The origins of the registered routes of exactly this prefix, each once, ascending; the error
    /// is that memory ran out. In either case the registry is sound, as the trait says.
    fn origins(&self, alloc: Global, prefix: Prefix) -> Result<Vec<AsNumber>, AllocError>
        ensures value { IfOk result (λ v. v.items ≡ origins (contents self.now) prefix) }
        ensures ascending { IfOk result (λ v. IsStrictlySortedBy nat_cmp v.items) }
        ensures sound { Sound (contents self.now) };

    /// Whether the key is that of an inetnum or an as-block whose span crosses that of a registered
    /// object of its class (profile). Spans cross where they overlap and neither covers the other.
    fn crosses(&self, key: &Key) -> bool
        ensures { result ≡ crosses_registered (contents self.now) key.now };

    /// Whether a registered object other than the maintainer of this name names that maintainer in
    /// `mnt-by`, `mnt-lower`, `mnt-routes` or `mbrs-by-ref` (profile).
    fn names_maintainer(&self, name: &Name) -> bool
        ensures { result ≡ is_named (contents self.now) name.now };
}
