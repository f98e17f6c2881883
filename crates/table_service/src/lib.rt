//! What the score table answers to browsers, and what it does between the answers. Its pages are
//! those of a mirror of a hall's log. What is sent from their forms is put into the journal, and
//! then submitted at the desks. Between the answers it keeps up with the desks.
#![tactic(auto)]

mod answering;
mod cards;
mod checks;
mod commanding;
mod desks_side;
mod disk;
mod drawing;
mod entering;
mod entries;
mod gate;
mod journal_file;
mod laws;
mod listing;
mod looking;
mod plan;
mod posting;
mod reading;
mod recents;
mod refusing;
mod remarks;
mod replies;
mod service;
mod serving;
mod setup;
mod showing;
mod undoing;
mod waiting;

pub use desks_side::PROGRAM;
pub use disk::{Disk, SystemFile};
pub use journal_file::{JournalFile, JournalFileFault, OpenedJournal, open_journal};
pub use laws::{
    a_form_is_taken, answers_are_secured, file_is_beside, file_only_asks,
    foreign_requests_are_refused, forms_alone_are_taken, reads_only_show, runs_are_of_the_outbox,
    saved_is_the_card, what_is_taken_stays,
};
pub use remarks::is_table_name;
pub use service::TableService;
pub use serving::{ScoreTableEnd, hall_name, serve};
pub use setup::Setup;
