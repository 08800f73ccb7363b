//! What may be asked of a registry. A query is read from a text by `query_reading`, and answered by
//! `answering`.

use rr_number::{AsNumber, Name, Prefix, SetName};
use rr_object::Key;

/// What is asked of a registry (profile).
#[derive(Debug, Drop)]
pub enum Query {
    /// The object of a key.
    Object(Key),
    /// The inetnum and the routes of exactly a prefix.
    Exact(Prefix),
    /// The closest inetnum and the closest routes to a prefix (RFC 2725, 9).
    Closest(Prefix),
    /// The inetnums and routes that cover a prefix, an equal one included.
    Less(Prefix),
    /// The inetnums and routes inside a prefix, an equal one included.
    More(Prefix),
    /// The objects that name a maintainer.
    Naming(Name),
    /// The routes of an origin.
    Originated(AsNumber),
    /// The members of a set, by its kind: AS numbers of an as-set, ranges of a route-set
    /// (RFC 2622, 5).
    Expand(SetName),
    /// The ranges of a set of either kind (RFC 2622, 5).
    Prefixes(SetName),
}
