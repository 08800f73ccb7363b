//! Bytes, and texts as their bytes, for all crates that read or print text: each notion has one
//! definition and one body. They are blanks and the line feed, texts trimmed, cut and joined,
//! letter case, decimal digits, and what names are made of.
#![tactic(auto)]

mod byte_set;
mod cuts;
mod digits;
mod letter_case;
mod names;
mod parts;
mod trims;

pub use byte_set::ByteSet;
pub use cuts::{cut_around, cut_at, cut_before, place_of};
pub use digits::{are_digits, capped_value};
pub use letter_case::{is_keyword, to_lower, to_upper};
pub use names::{is_attribute_name, is_name};
pub use parts::{joined_by_space, parts_between, words};
pub use trims::{trim, trim_end, trim_start};
