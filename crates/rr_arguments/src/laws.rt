//! Laws of command lines, for readers. Nothing calls these functions.

ghost use Rattle.rr_arguments.specs.Named.{FullIsNamed};

/// Where words ask for a dump, there are two at least: the program's name and the command. They ask
/// for it in full exactly if `--full` is among the words after these, before any word `--`.
pub fn full_is_named()
    ensures { FullIsNamed }
{}
