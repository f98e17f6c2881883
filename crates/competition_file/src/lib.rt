//! A competition's file in the WCA Competition Interchange Format, beside the list: who people are,
//! what they can, and where they compete. No result depends on it.
#![tactic(auto)]

mod bests;
mod duties;
mod fields;
mod file;
mod groups;
mod items;
mod kept;
mod limits;
mod numbers;
mod opening;

pub use bests::{ResultKind, best_of, kind_name};
pub use duties::Duty;
pub use fields::field_best;
pub use file::{CompetitionFile, RenewFault};
pub use groups::{RoundGroup, Seat, round_groups};
pub use items::items_under;
pub use limits::{cumulative_limit, limit_rounds, round_of};
pub use numbers::list_number;
pub use opening::{OpenFault, file_bytes, file_given};
