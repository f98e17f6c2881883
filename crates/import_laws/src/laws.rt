//! The laws.

ghost use Rattle.import_laws.specs.{Laws.GoodFilesAreImported, Worked.WorksFile};

/// A competition's file that was written by hand, byte for byte, and its commands: two accepted
/// persons, a pending and a deleted one, two events, three rounds.
pub fn worked_file()
    ensures { WorksFile }
{}

/// A file that spells a competition of which a desk can hold all has no fault, and is imported to
/// the commands of the competition and no others: a law.
pub fn good_files_are_imported()
    ensures { GoodFilesAreImported }
{}
