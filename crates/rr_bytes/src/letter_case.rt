//! Letter case of ASCII, which keywords and names ignore (RFC 2622, 2): for `rr_number`,
//! `rr_object`, `rr_answer` and `rr_http`.

ghost use Rattle.std.specs.Prelude.{◌≡◌, IfOk};
ghost use Rattle.std.specs.Str.{bytes_eq};
ghost use Rattle.rr_bytes.specs.LetterCase.{is_keyword, lowered, upper};

use std::alloc::{AllocError, Global};

/// Whether the text is the word, but for the case of ASCII letters (RFC 2622, 2): they are equal in
/// lower case, and exactly then in upper case.
pub fn is_keyword(text: &[u8], word: &[u8]) -> bool
    ensures value { result ≡ is_keyword word.now text.now }
    ensures upper { result ≡ bytes_eq (upper text.now) (upper word.now) }
{
    text.eq_ignore_ascii_case(word)
}

/// The text with its ASCII letters in upper case; the error is that memory ran out.
pub fn to_upper(alloc: Global, text: &[u8]) -> Result<Vec<u8>, AllocError>
    ensures { IfOk result (λ bytes. bytes.items ≡ upper text.now) }
{
    let mut bytes = Vec::from_slice(alloc, text)?;
    bytes.as_mut_slice().make_ascii_uppercase();
    Ok(bytes)
}

/// The text with its ASCII letters in lower case; the error is that memory ran out.
pub fn to_lower(alloc: Global, text: &[u8]) -> Result<Vec<u8>, AllocError>
    ensures { IfOk result (λ bytes. bytes.items ≡ lowered text.now) }
{
    let mut bytes = Vec::from_slice(alloc, text)?;
    bytes.as_mut_slice().make_ascii_lowercase();
    Ok(bytes)
}
