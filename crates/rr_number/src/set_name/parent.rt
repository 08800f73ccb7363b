//! What the name of a set says to be above the set, as `AS64496` is above `AS64496:AS-X`: for the
//! verdict on a new set.

ghost use Rattle.std.specs.Prelude.{◌≡◌, IfOk};
ghost use Rattle.std.specs.List.{list_all};
ghost use Rattle.std.specs.Option.{option_copied};
ghost use Rattle.rr_number.specs.Parents.{parent_text, parent_of};
ghost use Rattle.rr_number.specs.SetNames.{components, is_as_number};

use super::{SetName, is_as_number};
use crate::AsNumber;
use crate::name_text::NameText;
use rr_bytes::cut_at;
use std::alloc::{AllocError, Global};

/// What is above a set: what its name without the last component names (RFC 2622, 5; RFC 2725, 9).
#[derive(Debug, PartialEq, Eq, Drop)]
pub enum Parent {
    /// One AS number is left: its aut-num.
    Number(AsNumber),
    /// A set's name is left: that set.
    Set(SetName),
    /// Several AS numbers alone are left, which name nothing.
    Bare,
}

impl SetName {
    /// What is above the set: what its name without the last component names. One AS number names
    /// its aut-num, several alone name nothing (`Bare`), and any other text names a set. `None`
    /// where the name has one component (RFC 2622, 5; RFC 2725, 9). The error is that memory ran
    /// out.
    pub fn parent(&self, alloc: Global) -> Result<Option<Parent>, AllocError>
        ensures { IfOk result (λ parent. parent ≡ parent_of self.now) }
    {
        let Some(parent) = parent_text(self.as_bytes()) else {
            return Ok(None);
        };
        if let Some(number) = AsNumber::read(parent) {
            return Ok(Some(Parent::Number(number)));
        }
        if has_as_numbers_alone(parent) {
            return Ok(Some(Parent::Bare));
        }
        let bytes = Vec::from_slice(alloc, parent)?;
        let text = NameText { bytes };
        Ok(Some(Parent::Set(SetName { text })))
    }
}

/// The text before the last colon, if there is one.
fn parent_text(bytes: &[u8]) -> Option<&[u8]>
    ensures { option_copied result ≡ parent_text bytes.now }
{
    let mut last = bytes;
    'components: while let Some((_, after)) = cut_at(last, b':') {
        last = after;
    }
    if last.len() == bytes.len() {
        return None;
    }
    let (parent, _) = bytes.split_at(bytes.len() - last.len() - 1);
    Some(parent)
}

/// Whether each component is an AS number.
fn has_as_numbers_alone(bytes: &[u8]) -> bool
    ensures { result ≡ list_all is_as_number (components bytes.now) }
{
    bytes
        .split(|b| *b == b':')
        .all(|component| is_as_number(component))
}
