//! The prefix at which two prefixes part: `adding` puts a node there.

ghost use Rattle.std.specs.Prelude.{◌≡◌, ◌<◌, ◌-◌, true, false};
ghost use Rattle.rr_number.specs.Prefixes.{span_of, masked, IsMasked};
ghost use Rattle.rr_number.specs.Spans.{covers};
ghost use Rattle.rr_cover.specs.TreeParts.{IsParting};

use rr_number::Prefix;

/// The prefix that covers the prefix and is a bit shorter.
fn shorter(prefix: Prefix) -> Prefix
    requires { 0 < prefix.length }
    ensures { result ≡ masked prefix.address (prefix.length - 1) }
{
    Prefix::new(prefix.address(), prefix.length() - 1)
}

/// The longest prefix that covers two prefixes, neither of which covers the other. It is sought
/// from `common` on, which covers the first of them alone.
pub(super) fn parting(common: Prefix, prefix: Prefix, other: Prefix) -> Prefix
    requires common { IsMasked common }
    requires masked { IsMasked other }
    requires over { covers (span_of common) (span_of prefix) ≡ true }
    requires short { covers (span_of common) (span_of other) ≡ false }
    requires apart { covers (span_of other) (span_of prefix) ≡ false }
    ensures { IsParting result prefix other }
{
    let wider = shorter(common);
    if wider.covers(other) {
        wider
    } else {
        parting(wider, prefix, other)
    }
}
