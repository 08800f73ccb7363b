//! What each command but `serve` and `probe` does, with the files that its arguments name and the
//! database that its settings name. Databases are in files, or in whatever else keeps them. A rule
//! for which no other source is named is this project's own (profile).
//!
//! `rr_cli` calls a command by its name, as [`load`], and [`plain`] for a run without arguments.
//! The calls below these, as [`load_to`], do the same over a desk or a connection; nothing outside
//! this crate uses them. What all of them say of rows holds where the disk gives back what was
//! written.
#![tactic(auto)]

mod cause;
mod command_fault;
mod diagnosis;
mod dump_command;
mod error_stream;
mod files;
mod host;
mod init_command;
mod load_command;
mod meta_rows;
mod meter;
mod migrate_command;
mod object_rows;
mod obstacle;
mod output;
mod places;
mod progress;
mod query_command;
mod readable;
mod registry_databases;
mod settings_file;
mod settings_reading;
mod shown;
mod submit_command;
mod trouble;
mod words;

pub use cause::{Cause, DatabaseCause};
pub use command_fault::ProgramFault;
pub use dump_command::{dump, dump_to};
pub use error_stream::ErrorStream;
pub use files::{Files, SystemFiles};
pub use host::{Host, NamedDatabase, Tools};
pub use init_command::{create_to, init};
pub use load_command::{load, load_to};
pub use migrate_command::{migrate, migrate_to};
pub use output::{Input, Output, ended, print};
pub use progress::{Progress, Reading, Shown};
pub use query_command::{answer_to, query};
pub use readable::Readable;
pub use registry_databases::{Absent, DatabaseFiles, Databases, close, open_desk};
pub use settings_file::{SettingKey, SettingsFault, read_settings};
pub use settings_reading::read_settings_file;
pub use shown::shown_name;
pub use submit_command::{plain, submit, submit_plain, submit_to};
pub use trouble::Trouble;
