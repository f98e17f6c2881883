//! The laws.

ghost use Rattle.edition_laws.specs.{NextInTurn.TakesWhoIsNext, SheetsAsBefore.PrintsAsBefore};
ghost use Rattle.edition_laws.specs.{WorkedAnswers.AnswersWorkedDays, WorkedDays.MendsWorkedDays};
ghost use Rattle.edition_laws.specs.{WorkedMending.MendsWorkedRounds, WorkedRounds.WorksRounds};
ghost use Rattle.edition_laws.specs.WorkedSheets.{PrintsWorkedSheets};

/// A law: a round that is opened again, and then closed with nothing between, has the sheet of
/// before, in both forms, and so has each other round.
#[tactic(auto, using(crate::proofs::Printed::sheets_as_before))]
pub fn sheets_as_before()
    ensures { PrintsAsBefore }
{}

/// A law: the place of one who withdraws goes to the first of those who wait whom no withdrawal
/// before has taken in.
pub fn takes_who_is_next()
    ensures { TakesWhoIsNext }
{}

/// Worked days: who is in a round after withdrawals, and what can no longer be mended then.
pub fn worked_days()
    ensures { MendsWorkedDays }
{}

/// Worked answers: what texts are answered in each edition that has them, with each code and the
/// order of checks.
pub fn worked_answers()
    ensures { AnswersWorkedDays }
{}

/// Worked sheets of editions 1 and 2, and of a round that was fixed: what is printed of accepted
/// commands.
pub fn worked_sheets()
    ensures { PrintsWorkedSheets }
{}

/// Worked rounds of editions 1 and 2, from texts to sheets: values, places and who advances.
pub fn worked_rounds()
    ensures { WorksRounds }
{}

/// Worked rounds of edition 3, from texts to sheets: what mends mistakes in them.
pub fn mended_rounds()
    ensures { MendsWorkedRounds }
{}
