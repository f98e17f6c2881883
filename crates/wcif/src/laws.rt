//! Laws of imports.

ghost use Rattle.wcif.specs.Laws.{NamesAreApart, AcceptsAll, CommandsAreFit, SetsUpMeet};
ghost use Rattle.wcif.specs.Laws.{DoesAllLines, PrintsWholeLines, ListsAreHeld};

/// A law: a file of which a desk can hold all has a list of persons and a list of events; the other
/// laws are of these two, and of the commands that they make.
#[tactic(auto, using(crate::proofs::Held::lists_held))]
pub fn lists_are_held()
    ensures { ListsAreHeld }
{}

/// A law: where a desk can hold all of a competition, the registrations that an import makes give
/// no two numbers one name.
#[tactic(auto, using(crate::proofs::Found::names_apart))]
pub fn names_are_apart()
    ensures { NamesAreApart }
{}

/// A law: where a desk can hold all of a competition, an empty meet accepts the commands that an
/// import makes, one after the other.
#[tactic(auto, using(crate::proofs::Together::accepts_all))]
pub fn accepts_all()
    ensures { AcceptsAll }
{}

/// A law: where a desk can hold all of a competition, the commands that an import makes are in the
/// ranges of their fields, so that each line is read back as its command.
pub fn commands_are_fit()
    ensures { CommandsAreFit }
{}

/// A law: where a desk can hold all of a competition, a meet that was empty has its people, rounds
/// and entries after the commands that an import makes, and no others.
#[tactic(auto, using(crate::proofs::Together::sets_up))]
pub fn sets_up_meet()
    ensures { SetsUpMeet }
{}

/// A law: where a desk can hold all of a competition, a desk that was empty answers each line that
/// an import makes with done, in their order and under whatever ids, and then has the commands of
/// the import.
pub fn does_all_lines()
    ensures { DoesAllLines }
{}

/// A law: where a desk can hold all of a competition, the text of an import has its commands as its
/// lines, one a line: none has a line feed in it, and nothing follows the last line feed.
#[tactic(auto, using(crate::proofs::Lines::whole_lines))]
pub fn prints_whole_lines()
    ensures { PrintsWholeLines }
{}
