//! The numbers and names of routing: addresses, prefixes, ranges of prefixes with their operators,
//! AS numbers and blocks of them, spans, names. They are for all crates that speak of objects, and
//! for `rr_cover`. Each is read from exactly the texts that spell it, a range as a prefix and an
//! operator, and printed as one of them. The definition that its `read` cites says what spells it.
#![tactic(auto)]

mod address;
mod any_set;
mod as_number;
mod as_span;
mod dash;
mod digits;
mod ends;
pub mod laws;
mod name;
mod name_text;
mod number_text;
mod operator;
mod prefix;
mod range;
mod set_kind;
mod set_name;
pub mod span;

pub use address::Address;
pub use as_number::AsNumber;
pub use as_span::AsSpan;
pub use name::Name;
pub use number_text::{NUMBER_SIZE, NumberText};
pub use operator::{LengthBounds, Operator};
pub use prefix::Prefix;
pub use range::{Range, read_ranged};
pub use set_kind::SetKind;
pub use set_name::{Parent, SetName};
pub use span::Span;
