//! RPSL text: paragraphs of attributes, read from text and printed as it (RFC 2622, 2). For all
//! crates that read objects, keep them or show them.
#![tactic(auto)]

pub mod attribute;
pub mod attributes;
mod block;
pub mod canonical;
mod comparing;
mod draft;
mod entry;
mod inspect;
pub mod laws;
mod line;
pub mod line_attribute;
mod line_so_far;
pub mod paragraph;
pub mod paragraphs;
mod printing;
pub mod reader;
pub mod text;
pub mod text_fault;
pub mod value;

pub use attribute::Attribute;
pub use attributes::Attributes;
pub use canonical::{print_onto, print_onto_with_values, read_canonical};
pub use line::is_refused;
pub use line_attribute::LineAttribute;
pub use paragraph::Paragraph;
pub use paragraphs::{Paragraphs, ParagraphsState};
pub use reader::next_paragraph;
pub use text::Text;
pub use text_fault::TextFault;
pub use value::meaning;
