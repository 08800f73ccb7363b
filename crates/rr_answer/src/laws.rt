//! Laws of answers and dumps, for readers and for the proofs of other crates. Nothing calls these
//! functions.

ghost use Rattle.rr_answer.specs.Secrecy.{AnswersKeepSecrets, DumpsKeepSecrets, SourcesAreRead};

/// A registry of a source is sound, and each object is what its paragraph reads as in that source.
/// Then each stands under its own key, and is what its paragraph reads as, whichever source this
/// names.
pub fn registries_of_a_source_are_read()
    ensures { SourcesAreRead }
{}

/// Registries that have objects of the same keys, equal in public, answer each query alike, under
/// the same limit and unless memory runs out. That is so if the objects stand under their own keys,
/// and are what their paragraphs read as. So what is hidden can't be asked for. With one registry
/// for both, this says that a query has one answer.
pub fn answers_keep_secrets()
    ensures { AnswersKeepSecrets }
{}

/// Registries that have objects of the same keys, equal in public, have the same public dump. That
/// is so if the objects stand under their own keys, and are what their paragraphs read as.
pub fn public_dumps_keep_secrets()
    ensures { DumpsKeepSecrets }
{}
