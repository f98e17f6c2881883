//! Who hears how commands are entered.

ghost use Rattle.std.specs.Prelude.{◌∷◌, [], List, Option};
ghost use Rattle.batch.specs.Watching.{Another, Begins, Entered, Notice, Tells, Waits, watched};

use acceptor::entry::Entry;
use lines::command_file::InputCommand;
use texts::Answer;

/// Hears how commands are entered, one after the other. Nothing depends on what it does.
pub trait Watch {
    /// What it heard, in order, where that is known.
    ghost heard: { Self → Option (List Notice) };

    /// A command is about to be entered with an id.
    fn begins(&mut self, command: &InputCommand, id: u64)
        ensures { Tells (watched heard self.old self.new) (Begins id command.now.text ∷ []) };

    /// The desk's queue was full, or the command is not decided yet, after this many tries, counted
    /// from 0. It is tried again.
    fn waits(&mut self, tries: u32)
        ensures { Tells (watched heard self.old self.new) (Waits tries ∷ []) };

    /// The command was entered, and its line is printed. Where it was waited for, it was answered
    /// so.
    fn entered(&mut self, answer: Option<Answer>)
        ensures { Tells (watched heard self.old self.new) (Entered answer ∷ []) };

    /// Another command is in the log under its id.
    fn finds_another(&mut self, entry: &Entry)
        ensures { Tells (watched heard self.old self.new) (Another entry.now ∷ []) };
}
