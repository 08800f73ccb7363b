//! What names are made of, with letters and digits of ASCII: those of attributes, for `rr_text`,
//! and those of maintainers, sources and sets, for `rr_number`.

ghost use Rattle.std.specs.Prelude.{◌≡◌};
ghost use Rattle.std.specs.List.{list_all};
ghost use Rattle.rr_bytes.specs.NameBytes.{begins_with_letter, ends_with_alphanumeric};
ghost use Rattle.rr_bytes.specs.NameBytes.{is_attribute_name, is_name, is_name_byte};

/// The most bytes that the name of an attribute has (profile).
const MOST_ATTRIBUTE_BYTES: usize = 64;

/// The most bytes that a name has (profile).
const MOST_BYTES: usize = 80;

/// Whether the text is the name of an attribute, in any letter case: 1 to 64 ASCII letters, digits,
/// `-` and `_`, the first a letter (profile).
pub fn is_attribute_name(text: &[u8]) -> bool
    ensures { result ≡ is_attribute_name text.now }
{
    begins_with_letter(text) && has_name_bytes(text) && text.len() <= MOST_ATTRIBUTE_BYTES
}

/// Whether the text is a name, in any letter case: 1 to 80 ASCII letters, digits, `-` and `_`. The
/// first is a letter, the last a letter or a digit (RFC 2622, 2; the count: profile).
#[tactic(auto, unfolding(crate::specs::NameBytes::is_name))]
pub fn is_name(text: &[u8]) -> bool
    ensures { result ≡ is_name text.now }
{
    text.len() <= MOST_BYTES
        && has_name_bytes(text)
        && begins_with_letter(text)
        && ends_with_alphanumeric(text)
}

#[inline]
fn has_name_bytes(text: &[u8]) -> bool
    ensures { result ≡ list_all is_name_byte text.now }
{
    text.iter()
        .all(|b| b.is_ascii_alphanumeric() || *b == b'-' || *b == b'_')
}

#[inline]
fn begins_with_letter(text: &[u8]) -> bool
    ensures { result ≡ begins_with_letter text.now }
{
    match text {
        [first, ..] => first.is_ascii_alphabetic(),
        [] => false,
    }
}

#[inline]
fn ends_with_alphanumeric(text: &[u8]) -> bool
    ensures { result ≡ ends_with_alphanumeric text.now }
{
    match text.last() {
        Some(b) => b.is_ascii_alphanumeric(),
        None => false,
    }
}
