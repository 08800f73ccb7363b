//! Laws of dumps that are read again, for readers and for the proofs of other crates. Nothing calls
//! these functions.

ghost use Rattle.rr_desk.specs.DumpLaws.{DumpsAreOfTheirSource, FullDumpsAreRead};

/// The full dump of a registry that can be read again (`IsDumpable`) reads, in its source, as its
/// objects in their order. It is a dump of that registry and of no other.
pub fn full_dumps_are_read()
    ensures { FullDumpsAreRead }
{}

/// A sound registry of which a text is a dump is of the source in which the text is read.
pub fn dumps_are_of_their_source()
    ensures { DumpsAreOfTheirSource }
{}
