//! Laws of runs, for readers and for the proofs of other crates. `Runs` defines runs, and
//! `Holdings` who holds a prefix, what is held, and what is foreign or own. Nothing calls these
//! functions.

ghost use Rattle.rr_registry.specs.Confined.{RunsConfine};
ghost use Rattle.rr_registry.specs.RunLaws.{RunsJoin, RunsPart, RunsStayOfSource, RunsStaySound};

/// A run of a list, and then a run of another from where it ended, are one run of both lists, with
/// the outcomes of both.
#[tactic(auto, using(crate::proofs::Running::run_append))]
pub fn runs_join()
    ensures { RunsJoin }
{}

/// A run of two lists, one after the other, is a run of the first and then a run of the second from
/// where that led. Its outcomes are those of the first and then those of the second.
#[tactic(auto, using(crate::proofs::Running::run_split))]
pub fn runs_part()
    ensures { RunsPart }
{}

/// A run from a sound registry ends at a sound one, where each object that is submitted has a
/// well-formed key.
#[tactic(auto, using(crate::proofs::Running::run_stays_sound))]
pub fn runs_stay_sound()
    ensures { RunsStaySound }
{}

/// A run from a registry of a source ends at a registry of that source, where each item is as it is
/// read in that source. Such a registry is sound, and each object is what its paragraph reads as in
/// that source. Such an item has a well-formed key, and the object that it submits, if any, is what
/// its paragraph reads as there.
pub fn runs_stay_of_their_source()
    ensures { RunsStayOfSource }
{}

/// A run of well-formed items begins at a sound registry in which a prefix is held. Foreign is what
/// comes with no secret that fits a mntner of the holders in that registry; what was refused as it
/// was read counts as own. If all that is submitted is foreign or the holders' own, what is not
/// foreign is a run by itself from that registry, with the outcomes that it had. What is held ends
/// as that run leaves it, or as it was if all was foreign. After either run the prefix is held.
pub fn runs_confine_what_is_foreign()
    ensures { RunsConfine }
{}
