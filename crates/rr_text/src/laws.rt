//! Laws of RPSL text, for readers and for the proofs of other crates: functions that do nothing,
//! whose contracts are proved.

ghost use Rattle.rr_text.specs.Laws as laws;

/// Two paragraphs of well-formed attributes with the same canonical text are the same, whatever the
/// size of that text.
pub fn canonical_text_determines()
    ensures { laws.CanonicalDetermines }
{}

/// Two paragraphs of well-formed attributes compare as equal exactly where their canonical text is
/// the same.
pub fn paragraphs_are_equal_as_printed()
    ensures { laws.EqualAsPrinted }
{}

/// Canonical text of at most 65,536 bytes, of a paragraph with at least one attribute, all well
/// formed, spells this paragraph alone.
pub fn canonical_text_spells()
    ensures { laws.CanonicalSpells }
{}

/// Lines that all end in LFs, a blank line with its LF and any text after it spell the entries of
/// the lines, then those of that text.
pub fn blank_line_joins()
    ensures { laws.BlankLineJoins }
{}

/// Take canonical text of at most 65,536 bytes, of a paragraph with at least one attribute, all
/// well formed. With an empty line after it, it puts this paragraph before the entries of what
/// follows.
pub fn canonical_text_leads()
    ensures { laws.CanonicalLeads }
{}

/// A skipped line with its LF, before a text, adds nothing to what the text spells.
pub fn skipped_line_is_passed()
    ensures { laws.SkippedLinePassed }
{}

/// A text that is empty, or ends with the LF of a blank line, and what follows it spell the entries
/// of the text, then those of what follows. Where what follows breaks off, this is true with those
/// of its entries that a blank line with its LF closes.
pub fn closed_text_joins()
    ensures { laws.ClosedTextJoins }
{}
