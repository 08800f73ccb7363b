//! The names of as-sets and route-sets: their keys, and what lists of members refer to.

ghost use Rattle.std.specs.Prelude.{◌≡◌, ◌++◌, nat_eq, IfOk, Some};
ghost use Rattle.std.specs.Str.{bytes_eq};
ghost use Rattle.std.specs.List.{list_all, list_any, starts_with};
ghost use Rattle.rr_io.specs.Sending.{Writes};
ghost use Rattle.rr_bytes.specs.LetterCase.{upper};
ghost use Rattle.rr_number.specs.AnySets.{as_any, rs_any};
ghost use Rattle.rr_number.specs.SetNames.{has_word_start, kind_of, IsSetText, component_text};
ghost use Rattle.rr_number.specs.SetNames.{components, is_any_set, is_as_number, is_component};
ghost use Rattle.rr_number.specs.SetNames.{is_name_of_kind, is_set_name, is_set_word, word_start};
ghost use Rattle.rr_number.specs.SetNames.{set_name_of, set_text};
ghost use Rattle.rr_number.specs.Shown.{Shows};

mod parent;

use crate::any_set::{AS_ANY, RS_ANY};
use crate::name::is_reserved_in_any_case;
use crate::name_text::NameText;
use crate::{AsNumber, SetKind};
pub use parent::Parent;
use rr_bytes::{cut_at, is_keyword, is_name, to_upper};
use rr_io::{Writer, write_all};
use std::alloc::{AllocError, Global};
use std::marker::Model;
use std::{fmt, io};

/// The most bytes that a set's name is spelled in (profile).
const MOST_BYTES: usize = 255;

/// The printed name of an as-set or a route-set: components joined by `:`, in upper case, at most
/// 255 bytes (RFC 2622, 5; the case and the count: profile). Each component is an AS number without
/// leading zeros, or a name that is not reserved, and at least one is a name. All names begin with
/// `AS-`, or all with `RS-`. The reserved `AS-ANY` and `RS-ANY` are names of sets too, by
/// themselves alone. Names of sets are ordered by their bytes (profile).
#[derive(Debug, PartialEq, Eq, PartialOrd, Ord, Drop)]
pub struct SetName {
    text: NameText,
}

impl Model for SetName {
    ghost use Rattle.std.specs.Prelude.{List, ℕ};
    ghost use Rattle.rr_number.specs.SetNames.{IsSetText};

    ghost Value = { List ℕ };

    ghost view = { λ a. a.text };

    ghost invariant = { λ a. IsSetText a.text };

    ghost inverse = { λ n. record { text = n } };
}

impl SetName {
    /// The set's name that the bytes spell, as it is printed; `None` where they spell none
    /// (RFC 2622, 5). They are in any letter case, and at most 255 (profile); their AS numbers may
    /// have leading zeros. `AS-ANY` and `RS-ANY` are names of sets, by themselves alone. The error
    /// is that memory ran out.
    pub fn read(alloc: Global, bytes: &[u8]) -> Result<Option<Self>, AllocError>
        ensures { IfOk result (λ name. name ≡ set_name_of bytes.now) }
    {
        if !is_set_name(bytes) {
            return Ok(None);
        }
        let bytes = printed(alloc, bytes)?;
        let text = NameText { bytes };
        Ok(Some(SetName { text }))
    }

    /// The name's bytes: they spell a set's name, and are as it is printed.
    pub fn as_bytes(&self) -> &[u8]
        ensures { Shows IsSetText self.now self.now result.now }
    {
        let text = &self.text;
        &text.bytes
    }

    /// The kind of the set that the name names: an as-set where a component begins with `AS-`, and
    /// else a route-set (RFC 2622, 5).
    pub fn kind(&self) -> SetKind
        ensures { result ≡ kind_of self.now }
    {
        if has_word_start(SetKind::AsSet, self.as_bytes()) {
            SetKind::AsSet
        } else {
            SetKind::RouteSet
        }
    }

    /// Whether the name is `AS-ANY` or `RS-ANY` (RFC 2622, 5).
    pub fn is_any(&self) -> bool
        ensures { result ≡ is_any_set self.now }
    {
        is_any_set(self.as_bytes())
    }

    /// Whether the name is `AS-ANY`.
    pub fn is_as_any(&self) -> bool
        ensures { result ≡ bytes_eq self.now as_any }
    {
        self.as_bytes() == AS_ANY
    }

    /// Whether the name is `RS-ANY`.
    pub fn is_rs_any(&self) -> bool
        ensures { result ≡ bytes_eq self.now rs_any }
    {
        self.as_bytes() == RS_ANY
    }

    /// Writes the name, as `write_all` does. The error is that a write failed: the writer has then
    /// taken the beginning of the name, and not all.
    pub fn print_to<W: Writer>(&self, writer: &mut W) -> io::Result<()>
        ensures { Writes (W.told writer.old) (W.told writer.new) self.now result }
    {
        write_all(writer, self.as_bytes())
    }

    /// An equal name; the error is that memory ran out.
    pub fn copy(&self, alloc: Global) -> Result<Self, AllocError>
        ensures { IfOk result (λ name. name ≡ self.now) }
    {
        let bytes = Vec::from_slice(alloc, self.as_bytes())?;
        let text = NameText { bytes };
        Ok(SetName { text })
    }
}

impl fmt::Display for SetName {
    ghost output = { λ name. Some name };

    fn fmt<W: fmt::Write>(&self, f: &mut fmt::Formatter<W>) -> fmt::Result {
        self.text.fmt(f)
    }
}

/// Whether a component of a printed name begins as the names of the kind do.
fn has_word_start(kind: SetKind, bytes: &[u8]) -> bool
    ensures { result ≡ has_word_start kind bytes.now }
{
    bytes
        .split(|b| *b == b':')
        .any(|component| component.starts_with(kind.word_start()))
}

/// Whether a text spells the name of a set, in any letter case.
#[tactic(auto, unfolding(crate::specs::SetNames::is_set_name))]
fn is_set_name(bytes: &[u8]) -> bool
    ensures { result ≡ is_set_name bytes.now }
{
    bytes.len() <= MOST_BYTES
        && (is_any_set(bytes)
            || is_name_of_kind(SetKind::AsSet, bytes)
            || is_name_of_kind(SetKind::RouteSet, bytes))
}

fn is_any_set(bytes: &[u8]) -> bool
    ensures { result ≡ is_any_set bytes.now }
{
    is_keyword(bytes, AS_ANY) || is_keyword(bytes, RS_ANY)
}

fn is_name_of_kind(kind: SetKind, bytes: &[u8]) -> bool
    ensures { result ≡ is_name_of_kind kind bytes.now }
{
    has_only_components(kind, bytes) && has_set_word(kind, bytes)
}

/// Whether each component is an AS number or a word of the kind.
fn has_only_components(kind: SetKind, bytes: &[u8]) -> bool
    ensures { result ≡ list_all (is_component kind) (components bytes.now) }
{
    bytes
        .split(|b| *b == b':')
        .all(|component| is_component(kind, component))
}

/// Whether some component is a word of the kind.
fn has_set_word(kind: SetKind, bytes: &[u8]) -> bool
    ensures { result ≡ list_any (is_set_word kind) (components bytes.now) }
{
    bytes
        .split(|b| *b == b':')
        .any(|component| is_set_word(kind, component))
}

fn is_component(kind: SetKind, component: &[u8]) -> bool
    ensures { result ≡ is_component kind component.now }
{
    is_as_number(component) || is_set_word(kind, component)
}

fn is_as_number(component: &[u8]) -> bool
    ensures { result ≡ is_as_number component.now }
{
    AsNumber::read(component).is_some()
}

/// Whether the component is a name that begins as those of the kind do and is not reserved.
fn is_set_word(kind: SetKind, component: &[u8]) -> bool
    ensures { result ≡ is_set_word kind component.now }
{
    is_name(component) && begins_as(kind, component) && !is_reserved_in_any_case(component)
}

/// Whether the component begins as the names of the kind do, in any letter case.
fn begins_as(kind: SetKind, component: &[u8]) -> bool
    ensures { result ≡ starts_with nat_eq (upper component.now) (word_start kind) }
{
    if component.len() < 3 {
        return false;
    }
    let (start, _) = component.split_at(3);
    match kind {
        SetKind::AsSet => is_keyword(start, b"AS-"),
        SetKind::RouteSet => is_keyword(start, b"RS-"),
    }
}

/// The text of a set's name as it is printed; the error is that memory ran out.
fn printed(alloc: Global, bytes: &[u8]) -> Result<Vec<u8>, AllocError>
    ensures { IfOk result (λ v. v.items ≡ set_text bytes.now) }
{
    let mut text = Vec::with_capacity(alloc, bytes.len())?;
    let mut rest = bytes;
    'components: while let Some((component, after)) = cut_at(rest, b':') {
        push_component(alloc, &mut text, component)?;
        text.push(b':')?;
        rest = after;
    }
    push_component(alloc, &mut text, rest)?;
    Ok(text)
}

/// Puts a component at the end, as it is printed; the error is that memory ran out, and then no
/// clause says what stands there.
fn push_component(alloc: Global, text: &mut Vec<u8>, component: &[u8]) -> Result<(), AllocError>
    ensures { IfOk result
        (λ _. text.new.items ≡ text.old.items ++ component_text component.now) }
{
    match AsNumber::read(component) {
        Some(number) => text.extend_from_slice(number.text().as_bytes())?,
        None => text.extend_from_slice(&to_upper(alloc, component)?)?,
    }
    Ok(())
}
