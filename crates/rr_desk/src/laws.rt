//! Laws of desks, for readers and for the proofs of other crates. Nothing calls these functions.

ghost use Rattle.rr_desk.specs.Histories.{BlanksStand, DesksStand, HistoriesAreRuns};
ghost use Rattle.rr_desk.specs.HistoryLaws.{BareTreesAreOfNone, HistoriesAreConfined};
ghost use Rattle.rr_desk.specs.HistoryLaws.{HistoriesKeepSecrets, ReportedIsKept};
ghost use Rattle.rr_desk.specs.HistoryLaws.{RowsTellTheRegistry, TreesTellTheRegistry};
ghost use Rattle.rr_desk.specs.Laws.{DesksKeepSecrets, FullDumpsAreLoaded, RowsAreDumpable};
ghost use Rattle.rr_desk.specs.Laws.{TurnsAreInOrder};

use sqlite::Alter;

/// Where a reader has the full dump of a registry that can be read again (`IsDumpable`), a load in
/// its source gives that registry and no other. If it fails, the fault is of the reader, of the
/// tables or of memory, and not of the text.
pub fn full_dumps_are_loaded()
    ensures { FullDumpsAreLoaded }
{}

/// The registry of a source whose rows tables hold can be read again (`IsDumpable`), if none of its
/// canonical texts has more than 65,536 bytes.
pub fn rows_are_dumpable()
    ensures { RowsAreDumpable }
{}

/// Two desks, both stopped or both not and under the same limit, whose registries look alike,
/// answer each query alike, unless memory runs out for either answer. So hidden text cannot be
/// asked for. It is said of registries whose objects stand under their own keys and are what their
/// paragraphs read as.
pub fn answers_of_desks_keep_secrets()
    ensures { DesksKeepSecrets }
{}

/// Let the bytes of connections to come be told, as over memory, and the connections be accepted in
/// their order. Then the i-th turn is that of the i-th of them, as far as there are both. The
/// reader of that connection told these bytes when it was accepted.
pub fn turns_are_in_order()
    ensures { TurnsAreInOrder }
{}

/// Let a database stand at first as a registry by itself does (`Stands`). Each history of it is
/// then one of that registry: the bytes that were told are those of the same requests to the
/// registry, in the same order. At the end the database stands as the registry then does. While a
/// desk runs and its connection is open, the tables hold the rows of the registry's objects and no
/// others. While it runs, a stop leaves such rows. It is said where the disk has given back what
/// was written, to the end of the history.
pub fn histories_are_runs<S: Alter>()
    ensures { HistoriesAreRuns S.Store }
{}

/// A desk that runs (`IsRunning`) stands as its registry by itself, so that a history can begin
/// with it.
pub fn desks_stand<S: Alter>()
    ensures { DesksStand S.Store }
{}

/// Let the first table of a database have no row, as in a new one, also in what a stop leaves
/// (`IsBlank`). A connection to it stands as where there is no registry, so that a history can
/// begin with it.
pub fn blanks_stand<S: Alter>()
    ensures { BlanksStand S.Store }
{}

/// Whatever becomes of a submission to a registry by itself that runs, the next opening can only
/// have the registry after the first items of the submission. These are all that its answer counts,
/// and one more at most.
pub fn reported_is_kept()
    ensures { ReportedIsKept }
{}

/// All that is submitted in a history that begins with a sound registry that runs is one run,
/// whatever stops it in between. Of each submission it has the first items: all that its answer
/// counts, and one more at most. The run ends at the registry that the next opening may have. Let a
/// prefix be held, and each of these items be foreign to its holders or their own. Then the run
/// answers those not foreign as if nobody else had submitted anything. What the holders hold ends
/// as it then would, and the prefix stays held.
pub fn histories_are_confined()
    ensures { HistoriesAreConfined }
{}

/// Registries that run and look alike tell the same of the same questions under the same limit,
/// unless memory runs out. So hidden text cannot be asked for in any number of questions. A
/// question is a query or the public dump. It is said of registries whose objects stand under their
/// own keys and are what their paragraphs read as.
pub fn histories_keep_secrets()
    ensures { HistoriesKeepSecrets }
{}

/// Tables hold the rows of one registry at most.
pub fn rows_tell_the_registry()
    ensures { RowsTellTheRegistry }
{}

/// Let the trees of a database be those of the rows of a registry, as a stop may leave them. If the
/// database holds the rows of a registry when it is opened, that is the same one.
pub fn trees_tell_the_registry()
    ensures { TreesTellTheRegistry }
{}

/// Trees in which the first table has no row are those of no registry, nor of objects in tables of
/// version 1.
pub fn bare_trees_are_of_none()
    ensures { BareTreesAreOfNone }
{}
