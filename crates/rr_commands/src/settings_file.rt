//! Settings as TOML: what a registry opens with, and where its database stands. `settings_reading`
//! reads them from a file.

ghost use Rattle.std.specs.Prelude.{◌≡◌, ◌≢◌, Err, IfErr, IfOk, None, Ok, Some};
ghost use Rattle.std.specs.Prelude.{string_bytes};
ghost use Rattle.std.specs.Option.{option_copied};
ghost use Rattle.toml.specs.Parse.{parse_document};
ghost use Rattle.toml.specs.View.{table_view};
ghost use Rattle.rr_commands.specs.SettingsFiles.{fault_of, integer_at, key_of, non_negative};
ghost use Rattle.rr_commands.specs.SettingsFiles.{number_at, parts_of, settings_of_text, store_of};
ghost use Rattle.rr_commands.specs.SettingsFiles.{text_at};
ghost use Rattle.rr_commands.specs.declared.settings_file.SettingsFault.TheVariants.{BadToml};
ghost use Rattle.rr_commands.specs.declared.settings_file.SettingsFault.TheVariants.{Memory};

use rr_desk::{Setting, Settings, ValueFault};
use std::alloc::{AllocError, Global};
use toml::Table;

/// A key of the settings.
#[derive(Clone, Copy)]
pub enum SettingKey {
    /// The name of the registry.
    Source,
    /// The name of the root maintainer.
    Root,
    /// The `auth` of the root maintainer.
    Auth,
    /// The most names that an expansion may reach, and for a route-set the most pairs of a set or
    /// an AS and a range.
    Limit,
    /// The path of the database.
    Store,
}

impl SettingKey {
    /// The key of one of a registry's settings.
    pub fn of(setting: Setting) -> SettingKey
        ensures { result ≡ key_of setting }
    {
        match setting {
            Setting::Source => SettingKey::Source,
            Setting::Root => SettingKey::Root,
            Setting::Auth => SettingKey::Auth,
            Setting::Limit => SettingKey::Limit,
        }
    }
}

/// Why a text is not settings.
#[derive(Clone, Copy)]
pub enum SettingsFault {
    /// The text is not TOML.
    BadToml,
    /// This key, the first in the order of `SettingKey`, is missing or bad.
    BadKey(SettingKey),
    /// Memory ran out.
    Memory,
}

impl SettingsFault {
    /// The fault of values that are not settings.
    fn of(fault: ValueFault) -> SettingsFault
        ensures { result ≡ fault_of fault }
    {
        match fault {
            ValueFault::Bad(setting) => SettingsFault::BadKey(SettingKey::of(setting)),
            ValueFault::Memory => SettingsFault::Memory,
        }
    }
}

impl From<AllocError> for SettingsFault {
    ghost from_gives = { λ _ fault. fault ≡ Memory };

    fn from(_error: AllocError) -> SettingsFault {
        SettingsFault::Memory
    }
}

/// The settings that a TOML text gives, and the path of the database, its key `store`: a text that
/// is not empty. `BadToml` says that the text is not TOML. `BadKey` has the first key that is
/// missing or bad, in the order `source`, `root`, `auth`, `limit`, `store`. The other fault is that
/// memory ran out. Which other values are bad, `Settings::read` says. Other keys are ignored
/// (profile).
pub fn read_settings(alloc: Global, text: &str) -> Result<(Settings, String), SettingsFault>
    ensures ok { IfOk result
        (λ read. settings_of_text text.now ≡ Ok (read.0, string_bytes read.1)) }
    ensures fault { IfErr result
        (λ fault. fault ≢ Memory → settings_of_text text.now ≡ Err fault) }
{
    let table = read_table(alloc, text)?;
    let settings = read_parts(alloc, &table)?;
    let store = read_store(alloc, &table)?;
    Ok((settings, store))
}

/// The table that the text is; the fault is that it is no TOML, or that memory ran out.
fn read_table(alloc: Global, text: &str) -> Result<Table, SettingsFault>
    ensures ok { IfOk result (λ table. parse_document text.now ≡ Some (table_view table)) }
    ensures fault { IfErr result (λ fault. fault ≢ Memory
        → (fault ≡ BadToml) × (parse_document text.now ≡ None)) }
{
    match toml::table_from_str(alloc, text) {
        Ok(table) => Ok(table),
        Err(error) => {
            if error.is_memory() {
                Err(SettingsFault::Memory)
            } else {
                Err(SettingsFault::BadToml)
            }
        }
    }
}

/// The settings of a registry; the fault is the first key that is missing or bad, or that memory
/// ran out.
fn read_parts(alloc: Global, table: &Table) -> Result<Settings, SettingsFault>
    ensures ok { IfOk result (λ settings. parts_of (table_view table.now) ≡ Ok settings) }
    ensures fault { IfErr result (λ fault. fault ≢ Memory
        → parts_of (table_view table.now) ≡ Err fault) }
{
    let source = text_at(table, "source");
    let root = text_at(table, "root");
    let auth = text_at(table, "auth");
    let limit = number_at(table, "limit");
    match Settings::read(alloc, source, root, auth, limit) {
        Ok(settings) => Ok(settings),
        Err(fault) => Err(SettingsFault::of(fault)),
    }
}

/// The path of the database; the fault is that its key is missing or bad, or that memory ran out.
fn read_store(alloc: Global, table: &Table) -> Result<String, SettingsFault>
    ensures ok { IfOk result
        (λ store. store_of (table_view table.now) ≡ Ok (string_bytes store)) }
    ensures fault { IfErr result (λ fault. fault ≢ Memory
        → store_of (table_view table.now) ≡ Err fault) }
{
    match text_at(table, "store") {
        Some(store) if !store.is_empty() => Ok(String::from_str(alloc, store)?),
        _ => Err(SettingsFault::BadKey(SettingKey::Store)),
    }
}

/// The text at a key, if there is one.
fn text_at<'a>(table: &'a Table, key: &str) -> Option<&'a str>
    ensures { option_copied result ≡ text_at key.now (table_view table.now) }
{
    match table.get(key) {
        Some(value) => value.as_str(),
        None => None,
    }
}

/// The integer at a key, if there is one that is not negative.
fn number_at(table: &Table, key: &str) -> Option<u64>
    ensures { result ≡ number_at key.now (table_view table.now) }
{
    match integer_at(table, key) {
        Some(number) => non_negative(number),
        None => None,
    }
}

/// The integer at a key, if there is one.
fn integer_at(table: &Table, key: &str) -> Option<i64>
    ensures { result ≡ integer_at key.now (table_view table.now) }
{
    match table.get(key) {
        Some(value) => value.as_integer(),
        None => None,
    }
}

/// The number, if it is not negative.
fn non_negative(number: i64) -> Option<u64>
    ensures { result ≡ non_negative number }
{
    match u64::try_from(number) {
        Ok(found) => Some(found),
        Err(_) => None,
    }
}
