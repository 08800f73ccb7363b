//! Settings: what a registry opens with, and how far expansions of sets go (profile). `rr_commands`
//! reads them from a file for each desk, and the program without arguments has built-in ones.

ghost use Rattle.std.specs.Prelude.{◌≡◌, ◌≢◌, IfErr, IfOk, None, Ok, Some};
ghost use Rattle.std.specs.Option.{option_copied};
ghost use Rattle.std.specs.Result.{result_ok};
ghost use Rattle.rr_number.specs.Names.{maintainer_name_of, name_of};
ghost use Rattle.rr_desk.specs.Settings.{IsSettings, auth_of, built_in, limit_of};
ghost use Rattle.rr_desk.specs.Settings.{needed, settings_of};
ghost use Rattle.rr_desk.specs.declared.settings.ValueFault.TheVariants.{Memory};
ghost use Rattle.rr_desk.specs.declared.settings.Setting.TheVariants as settings;

use rr_number::Name;
use rr_object::{Auth, ObjectFault};
use std::alloc::{AllocError, Global};
use std::marker::Model;

/// The greatest limit of an expansion (profile).
pub const GREATEST_LIMIT: u64 = 1_000_000;

/// The settings by name.
#[derive(Clone, Copy, Debug, PartialEq, Eq)]
pub enum Setting {
    /// The name of the registry: the `source` of its objects.
    Source,
    /// The name of the root maintainer.
    Root,
    /// The `auth` of the root maintainer.
    Auth,
    /// The most names that an expansion may reach, and for a route-set the most pairs of a set and
    /// a range.
    Limit,
}

/// Why values are not settings.
#[derive(Clone, Copy, Debug, PartialEq, Eq)]
pub enum ValueFault {
    /// This setting, the first in the order of `Setting`, is missing or bad.
    Bad(Setting),
    /// Memory ran out.
    Memory,
}

impl From<AllocError> for ValueFault {
    ghost from_gives = { λ _ fault. fault ≡ Memory };

    fn from(_error: AllocError) -> ValueFault {
        ValueFault::Memory
    }
}

/// What a registry opens with: its source, and its root maintainer with the salt and digest of its
/// secret. And the limit of expansions: the most names that one may reach, and for a route-set the
/// most pairs of a set and a range (profile).
///
/// All settings are good (`IsSettings`), and the clauses `good` say it where a proof needs it. The
/// source is a name and the root a maintainer's, both in upper case. The digest is one of SHA-256,
/// with a salt. The limit is 1 to [`GREATEST_LIMIT`].
#[derive(Debug, Drop)]
pub struct Settings {
    source: Name,
    root: Name,
    auth: Auth,
    limit: u64,
}

impl Model for Settings {
    ghost use Rattle.rr_desk.specs.Settings.{IsSettings, SettingsParts, parts};

    ghost Value = { SettingsParts };

    ghost view = { λ s. parts s.source s.root s.auth s.limit };

    ghost invariant = { λ s. IsSettings (parts s.source s.root s.auth s.limit) };
}

impl Settings {
    /// The settings that these values are: a name, a maintainer's name, a value of `auth` of the
    /// scheme `SHA256-PW`, and a limit of 1 to [`GREATEST_LIMIT`]. Names are put in upper case.
    /// `None` if one of the values is not good; the error is that memory ran out.
    pub fn new(
        alloc: Global,
        source: &str,
        root: &str,
        auth: &str,
        limit: u64,
    ) -> Result<Option<Settings>, AllocError>
        ensures { IfOk result (λ read. read ≡ result_ok
            (settings_of (Some source.now) (Some root.now) (Some auth.now) (Some limit))) }
    {
        match Settings::read(alloc, Some(source), Some(root), Some(auth), Some(limit)) {
            Ok(settings) => Ok(Some(settings)),
            Err(ValueFault::Bad(_)) => Ok(None),
            Err(ValueFault::Memory) => Err(AllocError),
        }
    }

    /// The settings that these values are, as at [`Settings::new`]; some may be missing. The fault
    /// is the first setting, in the order of `Setting`, that is missing or bad, or that memory ran
    /// out.
    #[tactic(auto, unfolding(crate::specs::Settings::settings_of))]
    pub fn read(
        alloc: Global,
        source: Option<&str>,
        root: Option<&str>,
        auth: Option<&str>,
        limit: Option<u64>,
    ) -> Result<Settings, ValueFault>
        ensures ok { IfOk result (λ read. settings_of (option_copied source.entry)
            (option_copied root.entry) (option_copied auth.entry) limit ≡ Ok read) }
        ensures fault { IfErr result (λ fault. fault ≢ Memory
            → settings_of (option_copied source.entry)
            (option_copied root.entry) (option_copied auth.entry) limit ≡ Err fault) }
    {
        let source = read_source(alloc, source)?;
        let root = read_root(alloc, root)?;
        let auth = read_auth(alloc, auth)?;
        let limit = read_limit(limit)?;
        Ok(Settings {
            source,
            root,
            auth,
            limit,
        })
    }

    /// The settings of the program without arguments: the source `TEST`, the root `ROOT-MNT` with
    /// the password `bc` and the salt `a`, and the limit 10,000 (profile). The error is that memory
    /// ran out.
    #[tactic(auto, using(crate::proofs::GoodSettings::built_in_read))]
    pub fn built_in(alloc: Global) -> Result<Settings, AllocError>
        ensures { IfOk result (λ settings. settings ≡ built_in) }
    {
        let settings = Settings::new(alloc, "TEST", "ROOT-MNT", BUILT_IN_AUTH, 10_000)?;
        // (these are good, as a lemma shows)
        Ok(settings.unwrap())
    }

    /// The source of the registry. The settings are good (`IsSettings`): the source is a name and
    /// the root a maintainer's, both in upper case. The digest is one of SHA-256, with a salt, and
    /// the limit is 1 to [`GREATEST_LIMIT`].
    pub fn source(&self) -> &Name
        ensures source { result.now ≡ self.now.source }
        ensures good { IsSettings self.now }
    {
        &self.source
    }

    /// The name of the root maintainer. The settings are good, as at [`Settings::source`].
    pub fn root(&self) -> &Name
        ensures root { result.now ≡ self.now.root }
        ensures good { IsSettings self.now }
    {
        &self.root
    }

    /// The salt and digest of the root's secret.
    pub fn auth(&self) -> &Auth
        ensures { result.now ≡ self.now.auth }
    {
        &self.auth
    }

    /// The most names that an expansion may reach, and for a route-set the most pairs of a set and
    /// a range. The settings are good, as at [`Settings::source`].
    pub(crate) fn limit(&self) -> u64
        ensures limit { result ≡ self.now.limit }
        ensures good { IsSettings self.now }
    {
        self.limit
    }
}

/// The `auth` of the root of the program without arguments: the salt `a`, and the SHA-256 digest of
/// `abc` (FIPS 180-4).
const BUILT_IN_AUTH: &str =
    "SHA256-PW a:ba7816bf8f01cfea414140de5dae2223b00361a396177a9cb410ff61f20015ad";

/// The name of a source; `Bad` says that it is missing or is no name.
fn read_source(alloc: Global, given: Option<&str>) -> Result<Name, ValueFault>
    ensures ok { IfOk result (λ name.
        needed settings.Source name_of (option_copied given.entry) ≡ Ok name) }
    ensures fault { IfErr result (λ fault. fault ≢ Memory
        → needed settings.Source name_of (option_copied given.entry) ≡ Err fault) }
{
    let Some(text) = given else {
        return Err(ValueFault::Bad(Setting::Source));
    };
    match Name::read(alloc, text.as_bytes())? {
        Some(name) => Ok(name),
        None => Err(ValueFault::Bad(Setting::Source)),
    }
}

/// The name of a maintainer; `Bad` says that it is missing or is no such name.
fn read_root(alloc: Global, given: Option<&str>) -> Result<Name, ValueFault>
    ensures ok { IfOk result (λ name.
        needed settings.Root maintainer_name_of (option_copied given.entry) ≡ Ok name) }
    ensures fault { IfErr result (λ fault. fault ≢ Memory
        → needed settings.Root maintainer_name_of (option_copied given.entry) ≡ Err fault) }
{
    let Some(text) = given else {
        return Err(ValueFault::Bad(Setting::Root));
    };
    match Name::read_maintainer(alloc, text.as_bytes())? {
        Some(name) => Ok(name),
        None => Err(ValueFault::Bad(Setting::Root)),
    }
}

/// The salt and digest of a secret; `Bad` says that the value is missing or stands for none.
fn read_auth(alloc: Global, given: Option<&str>) -> Result<Auth, ValueFault>
    ensures ok { IfOk result (λ auth.
        needed settings.Auth auth_of (option_copied given.entry) ≡ Ok auth) }
    ensures fault { IfErr result (λ fault. fault ≢ Memory
        → needed settings.Auth auth_of (option_copied given.entry) ≡ Err fault) }
{
    let Some(text) = given else {
        return Err(ValueFault::Bad(Setting::Auth));
    };
    match rr_object::read_auth(alloc, text.as_bytes()) {
        Ok(Some(auth)) => Ok(auth),
        Err(ObjectFault::Memory) => Err(ValueFault::Memory),
        _ => Err(ValueFault::Bad(Setting::Auth)),
    }
}

/// A limit within its bounds; `Bad` says that it is missing or is not.
fn read_limit(given: Option<u64>) -> Result<u64, ValueFault>
    ensures { result ≡ needed settings.Limit limit_of given }
{
    match given {
        Some(limit) if limit >= 1 && limit <= GREATEST_LIMIT => Ok(limit),
        _ => Err(ValueFault::Bad(Setting::Limit)),
    }
}
