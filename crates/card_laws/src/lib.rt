//! Laws of scorecards: a card means what its attempts mean one by one; how long its attempts count;
//! when a second card over the same values is accepted; and that no answer depends on a remark.
//! Each law is the contract of a function that does nothing.
#![tactic(auto)]

mod accepting;
mod giving_back;
mod holding;
mod over_nothing;
mod premises;
mod telling;
mod worked;

pub use accepting::logs_are_accepted;
pub use giving_back::{
    accepted_only_where_given_back, fixed_only_where_given_back, second_only_where_given_back,
};
pub use holding::{card_stands, fix_stands, holds_until_named};
pub use over_nothing::{
    card_is_accepted_as_attempts, card_is_attempts, card_is_refused_as_attempts,
    card_prints_as_attempts,
};
pub use premises::rounds_meet_premises;
pub use telling::{nothing_stands_on_remarks, remarks_are_told, what_stands_reads_back};
pub use worked::{
    sets_edition, works_giving_back, works_over_nothing, works_saved, works_standing,
    works_taken_back,
};
