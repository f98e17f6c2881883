//! The table of a round: who is entered, what they did, and their places.
#![tactic(auto)]

mod cutoff;
mod entrants;
mod fault;
mod kept;
mod kept_entrant;
mod laws;
mod packed_key;
mod recount;
mod rules;
mod slots;
mod standings;
mod table;
mod value_row;

pub use fault::{
    CloseFault, CorrectFault, EnterFault, FixFault, PutFault, ReopenFault, RulesFault, SetFault,
    StrikeFault, WithdrawFault,
};
pub use kept::EntrantResult;
pub use laws::who_met_the_cutoff_is_better;
pub use table::{EntrantRow, RoundTable};
