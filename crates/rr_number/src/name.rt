//! Names, of maintainers and sources, for keys, attributes and settings; and the reserved words. No
//! maintainer is named by one of these, and `set_name` goes by them.

ghost use Rattle.std.specs.Prelude.{◌≡◌, ℕ, IfOk, List, Some};
ghost use Rattle.std.specs.List.{list_any};
ghost use Rattle.std.specs.Str.{bytes_eq};
ghost use Rattle.rr_io.specs.Sending.{Writes};
ghost use Rattle.rr_bytes.specs.LetterCase.{upper};
ghost use Rattle.rr_number.specs.Names.{is_maintainer_name, is_reserved, maintainer_name_of};
ghost use Rattle.rr_number.specs.Names.{name_of, IsUpperName};
ghost use Rattle.rr_number.specs.Shown.{Shows};

use crate::any_set::{AS_ANY, RS_ANY};
use crate::name_text::NameText;
use rr_bytes::{is_keyword, is_name, to_upper};
use rr_io::{Writer, write_all};
use std::alloc::{AllocError, Global};
use std::marker::Model;
use std::{fmt, io};

/// The words that RPSL keeps for itself, in upper case (RFC 2622, 2).
const RESERVED: [&[u8]; 20] = [
    b"ANY",
    AS_ANY,
    RS_ANY,
    b"PEERAS",
    b"AND",
    b"OR",
    b"NOT",
    b"ATOMIC",
    b"FROM",
    b"TO",
    b"AT",
    b"ACTION",
    b"ACCEPT",
    b"ANNOUNCE",
    b"EXCEPT",
    b"REFINE",
    b"NETWORKS",
    b"INTO",
    b"INBOUND",
    b"OUTBOUND",
];

/// A name, in upper case: 1 to 80 letters, digits, `_` and `-`, the first a letter, the last a
/// letter or a digit (RFC 2622, 2; the count and the case: profile). Names are ordered by their
/// bytes (profile).
#[derive(Debug, PartialEq, Eq, PartialOrd, Ord, Drop)]
pub struct Name {
    text: NameText,
}

impl Model for Name {
    ghost use Rattle.std.specs.Prelude.{List, ℕ};
    ghost use Rattle.rr_number.specs.Names.{IsUpperName};

    ghost Value = { List ℕ };

    ghost view = { λ a. a.text };

    ghost invariant = { λ a. IsUpperName a.text };

    ghost inverse = { λ n. record { text = n } };
}

impl Name {
    /// The name that the bytes spell, in any letter case; `None` where they spell none (RFC 2622,
    /// 2). What is read is in upper case, and may be a reserved word. The error is that memory ran
    /// out.
    pub fn read(alloc: Global, bytes: &[u8]) -> Result<Option<Self>, AllocError>
        ensures { IfOk result (λ name. name ≡ name_of bytes.now) }
    {
        if !is_name(bytes) {
            return Ok(None);
        }
        let bytes = to_upper(alloc, bytes)?;
        let text = NameText { bytes };
        Ok(Some(Name { text }))
    }

    /// The maintainer's name that the bytes spell, in any letter case; what is read is in upper
    /// case. `None` where they spell no name, a reserved word, or a name that begins with `AS-` or
    /// `RS-` (RFC 2622, 2). The error is that memory ran out.
    pub fn read_maintainer(alloc: Global, bytes: &[u8]) -> Result<Option<Self>, AllocError>
        ensures { IfOk result (λ name. name ≡ maintainer_name_of bytes.now) }
    {
        match Name::read(alloc, bytes)? {
            Some(name) if name.is_maintainer() => Ok(Some(name)),
            _ => Ok(None),
        }
    }

    /// The name's bytes, which spell a name and are in upper case.
    pub fn as_bytes(&self) -> &[u8]
        ensures { Shows IsUpperName self.now self.now result.now }
    {
        let text = &self.text;
        &text.bytes
    }

    /// Whether the name is a word that RPSL keeps for itself (RFC 2622, 2).
    fn is_reserved(&self) -> bool
        ensures { result ≡ is_reserved self.now }
    {
        is_reserved(self.as_bytes())
    }

    /// Whether a maintainer may have this name: it is not reserved, and does not begin with `AS-`
    /// or `RS-` (RFC 2622, 2).
    fn is_maintainer(&self) -> bool
        ensures { result ≡ is_maintainer_name self.now }
    {
        let bytes = self.as_bytes();
        !self.is_reserved() && !bytes.starts_with(b"AS-") && !bytes.starts_with(b"RS-")
    }

    /// Writes the name, as `write_all` does. The error is that a write failed: the writer has then
    /// taken the beginning of the name, and not all.
    pub fn print_to<W: Writer>(&self, writer: &mut W) -> io::Result<()>
        ensures { Writes (W.told writer.old) (W.told writer.new) self.now result }
    {
        write_all(writer, self.as_bytes())
    }

    /// An equal name; the error is that memory ran out.
    pub fn copy(&self, alloc: Global) -> Result<Self, AllocError>
        ensures { IfOk result (λ name. name ≡ self.now) }
    {
        let bytes = Vec::from_slice(alloc, self.as_bytes())?;
        let text = NameText { bytes };
        Ok(Name { text })
    }
}

/// Writes the name as it is kept, in upper case.
impl fmt::Display for Name {
    ghost output = { λ name. Some name };

    fn fmt<W: fmt::Write>(&self, f: &mut fmt::Formatter<W>) -> fmt::Result {
        self.text.fmt(f)
    }
}

/// Whether a word, in upper case, is reserved (RFC 2622, 2).
#[tactic(auto, unfolding(crate::specs::Names::is_reserved))]
fn is_reserved(word: &[u8]) -> bool
    ensures { result ≡ is_reserved word.now }
{
    is_among(word, &RESERVED)
}

/// Whether the word is one of these.
fn is_among(word: &[u8], words: &[&[u8]]) -> bool
    ensures { result ≡ list_any (λ w. bytes_eq word.now w.now) words.now }
{
    words.iter().any(|other| word == *other)
}

/// Whether a word, in any letter case, is reserved (RFC 2622, 2).
#[tactic(auto, unfolding(crate::specs::Names::is_reserved))]
pub(crate) fn is_reserved_in_any_case(word: &[u8]) -> bool
    ensures { result ≡ is_reserved (upper word.now) }
{
    is_spelled_among(word, &RESERVED)
}

/// Whether the word is one of these, in any letter case.
fn is_spelled_among(word: &[u8], words: &[&[u8]]) -> bool
    ensures { result ≡ list_any (λ w. bytes_eq (upper word.now) (upper w.now)) words.now }
{
    words.iter().any(|other| is_keyword(word, other))
}
