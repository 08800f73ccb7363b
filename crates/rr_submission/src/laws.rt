//! Laws of submissions, for readers and for the proofs of other crates. Nothing calls these
//! functions.

ghost use Rattle.rr_submission.specs.SubmissionLaws.{ItemsAreConfined, ItemsKeepTheSource};

/// A run of the items of a text begins at a registry of the source in which the text is read. It
/// leaves a registry of that source, whatever the items ask.
pub fn items_keep_the_source()
    ensures { ItemsKeepTheSource }
{}

/// A run of the first items of a text begins at a sound registry in which a prefix is held. Where
/// each item is foreign to the holders or their own, the run answers those not foreign as if nobody
/// else had submitted anything. What the holders hold ends as it then would, and the prefix stays
/// held.
pub fn items_are_confined()
    ensures { ItemsAreConfined }
{}
