//! The fields of the head of a request, which `asking` looks up by name.

ghost use Rattle.std.specs.Prelude.{All, length};
ghost use Rattle.httparse.specs.Spans.{IsHeaderWithin};

use httparse::spans::HeaderSpan;
use rr_bytes::is_keyword;

/// The fields of a head, as spans of its bytes.
#[derive(Clone, Copy)]
pub(crate) struct Fields<'a> {
    head: &'a [u8],
    spans: &'a [HeaderSpan],
    ghost within: { All (IsHeaderWithin (length head.now)) spans.now },
}

impl<'a> Fields<'a> {
    ghost use Rattle.std.specs.Prelude.{◌≡◌, ◌∷◌, [], MatchOption};
    ghost use Rattle.httparse.specs.Spans.{header_bytes};
    ghost use Rattle.rr_http.specs.AskedParts.{fields_in, fields_of};
    ghost use Rattle.rr_http.specs.Requests.{is_field_of, values_of};

    /// The fields that these spans of a head cover.
    pub(crate) fn new(head: &'a [u8], spans: &'a [HeaderSpan]) -> Fields<'a>
        requires { All (IsHeaderWithin (length head.now)) spans.now }
        ensures { fields_in result ≡ fields_of head.now spans.now }
    {
        Fields { head, spans }
    }

    /// The value of the first field of this name, in any case of letters, and the fields after it;
    /// `None` if there is none.
    pub(crate) fn find(self, name: &[u8]) -> Option<(&'a [u8], Fields<'a>)>
        ensures { MatchOption result (values_of name.now (fields_in self.entry) ≡ [])
            (λ found. values_of name.now (fields_in self.entry)
            ≡ found.0.now ∷ values_of name.now (fields_in found.1)) }
    {
        let mut rest = self.spans;
        'fields: while let Some((field, after)) = rest.split_first() {
            if Fields::has_name(self.head, field, name) {
                return Some((field.value.of(self.head), Fields::new(self.head, after)));
            }
            rest = after;
        }
        None
    }

    /// Whether a field of a head has this name, in any case of letters (RFC 9110, 5.1).
    fn has_name(head: &[u8], field: &HeaderSpan, name: &[u8]) -> bool
        requires { IsHeaderWithin (length head.now) field.now }
        ensures { result ≡ is_field_of name.now (header_bytes head.now field.now) }
    {
        is_keyword(field.name.of(head), name)
    }
}
