//! What a replay gives of the archive of a log: the contract of a function that does nothing.

ghost use Rattle.archive.specs.Replayed.{LogsAreReplayed};

use commands::every_id_is_seen;
use texts::one_spelling;

/// A replay of the archive of a log reads all of it, a line for each entry; answers each line as
/// the hall answers the entry, but `Unread` where an entry in front has the id; and gives each
/// sheet of the log at its length, as text and as a table.
pub fn archives_are_replayed()
    ensures { LogsAreReplayed }
{
    one_spelling();
    every_id_is_seen();
}
