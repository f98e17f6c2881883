//! Cases, worked by hand, that meet the premises of laws: so no law is empty. Each is the contract
//! of a function that does nothing.
#![tactic(auto)]

mod copies;
mod dialogues;
mod exported;
mod followers;
mod forms;
mod hall_files;
mod link_calls;
mod reopened;
mod streams;

pub use copies::mirrors_are_told;
pub use dialogues::desks_are_asked;
pub use exported::a_result_is_exported;
pub use followers::a_hall_is_followed;
pub use forms::a_form_is_written;
pub use hall_files::a_hall_is_said;
pub use link_calls::a_link_is_called;
pub use reopened::a_round_is_reopened;
pub use streams::a_record_is_changed;
