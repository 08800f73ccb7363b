//! The objects of the registry: classes, keys, and what a paragraph's attributes say (RFC 2622, 2
//! to 6). The crates above decide on objects, look them up, store them and answer with them.
#![tactic(auto)]

pub mod auth;
pub mod auths;
mod by_ref;
pub mod class;
pub mod code;
mod counts;
mod extra;
pub mod grant;
mod grants;
mod item;
pub mod key;
mod key_print;
mod key_text;
pub mod kind;
pub mod laws;
mod lists;
pub mod maintainers_named;
pub mod member;
mod members;
pub mod object;
pub mod object_fault;
mod object_reading;
pub mod paragraph_key;
pub mod public_form;

pub use auth::Auth;
pub use auths::read_auth;
pub use class::Class;
pub use code::Code;
pub use grant::Grant;
pub use key::Key;
pub use kind::Kind;
pub use maintainers_named::MaintainersNamed;
pub use member::{Member, MemberSet};
pub use object::Object;
pub use object_fault::ObjectFault;
pub use paragraph_key::key_of;
pub use public_form::{print_public, public};
