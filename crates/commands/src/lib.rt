//! What a list of commands means: competitors, rounds and their attempts. What a text spells is
//! said in `texts`.
#![tactic(auto)]

mod accepted;
mod cards;
mod changes;
mod codes;
mod competitors;
mod index;
mod kept_rounds;
mod laws;
mod meet;
mod mending;
mod openings;
mod outcomes;
mod rounds_rule;
mod settings;
mod solutions;

pub use laws::{
    cancels_as_before, closes_as_before, every_id_is_seen, first_opening_holds,
    later_editions_change_no_answer, renames_alone,
};
pub use meet::Meet;
pub use outcomes::{is_wrong, lacks_scramble, settled};
pub use texts::{
    Advance, Answer, AttemptEntry, CardEntry, Code, Command, CommandFault, Entered, Name,
    NewAttempts, RemarkedCommand, RoundId, SeenValues, Settings, is_spelled_in, one_spelling,
    print, print_advance, print_cutoff, print_limit, print_remarked, read,
};
