//! What holds of each answer and of the journal, whatever is asked.

ghost use Rattle.table_service.specs.Beside.{FileIsBeside, FileOnlyAsks, ReadsOnlyShow};
ghost use Rattle.table_service.specs.Laws.{RefusesForeign, SavedIsTheCard, SecuresAll};
ghost use Rattle.table_service.specs.{Laws.TakesForForms, WorkedTaking.WorksTaking};
ghost use Rattle.table_service.specs.Runs.{RunsAreOfTheOutbox, TakenStays};

use outbox::laws::{loses_nothing, saved_is_entered, submits_what_is_kept, told_by_the_log};

/// A law: only what a form asks for is taken, and only if the form names no foreign host or origin,
/// comes by POST and carries the token. A card is the one command that its form is read as, under
/// the id of that form, which confirms all that the mirror's log of that moment asks of the card.
/// The answer says that it is taken only if it is in the list and its line is kept.
pub fn forms_alone_are_taken()
    ensures { TakesForForms }
{}

/// A law: each answer has the fields by which a page loads nothing but the program's own.
pub fn answers_are_secured()
    ensures { SecuresAll }
{}

/// A law: a request of another host or origin is refused with 403, and changes nothing.
pub fn foreign_requests_are_refused()
    ensures { RefusesForeign }
{}

/// A law: whatever is asked, whatever the loop does, and however often the program is started again
/// after a crash, the items and the lines of the journal are what calls of the outbox make of them.
/// So the laws of `outbox` are of the program: what is to be written to a desk is nothing but the
/// end of a Submit, for this hall, of an entry whose line is in the journal and is synced.
pub fn runs_are_of_the_outbox()
    ensures { RunsAreOfTheOutbox }
{
    submits_what_is_kept();
}

/// A law: what a form was answered to be taken is in the list from then on, whatever is asked and
/// whatever the loop does, and after a crash at any moment, whatever is then in the file after what
/// was synced.
pub fn what_is_taken_stays()
    ensures { TakenStays }
{
    loses_nothing();
}

/// A law: a card that is reported saved at a position is there, in every log that long: just before
/// it the competitor's attempts were those that the card's page showed, and just after it they are
/// the card's.
pub fn saved_is_the_card()
    ensures { SavedIsTheCard }
{
    told_by_the_log();
    saved_is_entered();
}

/// A score table accepts a command from a page of its own, starts again after a crash, and refuses
/// a request that names another host. So the laws on what is taken say something.
pub fn a_form_is_taken()
    ensures { WorksTaking }
{}

/// A law: what comes of a form, unless it is that of a card, and what is answered to it, is the
/// same whatever the competition's file is.
#[tactic(auto, using(crate::proofs::Beside::beside))]
pub fn file_is_beside()
    ensures { FileIsBeside }
{}

/// A law: the competition's file can only ask. What comes of a form, and what is answered to it, is
/// the same without the file, or nothing is taken and the card is shown with what is to be
/// confirmed first.
#[tactic(auto, using(crate::proofs::Beside::only_asks))]
pub fn file_only_asks()
    ensures { FileOnlyAsks }
{}

/// A law: of a request that only reads, and so of each page that the file is for, nothing comes but
/// that the ids of a page are used.
pub fn reads_only_show()
    ensures { ReadsOnlyShow }
{}
