//! The store: objects kept in SQLite, and whom they name, in three tables that hold exactly their
//! rows. A desk keeps the objects of its registry in it, and commands ask here why a database is
//! refused. `tools/irr/local` writes such tables itself, and reads and changes their rows: whoever
//! changes columns, keys or the order of rows here changes them there too.
#![tactic(auto)]

mod bodies;
mod checks;
mod columns;
mod creating;
mod ending;
mod entry;
mod filling;
mod idle_connection;
mod leaving_names;
mod making;
mod meta;
mod meta_check;
mod migrating;
mod names;
mod namings;
mod objects;
mod opening;
mod row_reading;
mod row_streams;
mod schema;
mod statements;
mod store;
mod store_fault;
mod upper;
mod vacancy;
mod version;
mod writes;

pub use idle_connection::IdleConnection;
pub use meta::is_version_row_alone;
pub use schema::{META_TREE, NAMED_TREE, OBJECT_TREE, has_tables};
pub use store::Store;
pub use store_fault::{CreateFault, MigrateFault, OpenFault, StoreFault};
pub use upper::upper_object;
pub use version::{OLD_VERSION, VERSION, Version, read_decimal};
