//! What the arguments of a replay ask for in either program: the contract of a function that does
//! nothing.

ghost use Rattle.arguments.specs.Laws.{ReplayIsAskedAlike};

/// Arguments that begin with `replay` ask the whole program for the same sheet as the program that
/// has no other subcommand.
pub fn replay_is_asked_alike()
    ensures { ReplayIsAskedAlike }
{}
