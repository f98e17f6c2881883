//! What a hall's file says leaves no choice: laws.

ghost use Rattle.hall_file.specs.Laws.{SaysOneHall, SaysOrIsRefused};

/// A file says one hall at most: a law.
pub fn says_one_hall()
    ensures { SaysOneHall }
{}

/// A file that says a hall is refused for want of memory alone: a law.
pub fn says_or_is_refused()
    ensures { SaysOrIsRefused }
{}
