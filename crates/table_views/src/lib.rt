//! What the pages of the score table have in common: their frame, what is known of the desks, the
//! last cards, how they look, and the forms that send commands.
#![tactic(auto)]

mod around;
mod bar;
mod counts;
mod desks;
mod editions;
mod forms;
mod frame;
mod hidden;
mod leaving;
mod line_forms;
mod looks;
mod pages;
mod people;
mod reasons;
mod recent;
mod typed;
mod values;

pub use around::{PageContext, Recent};
pub use desks::HallStatus;
pub use editions::{is_latest, push_edition_form};
pub use forms::{
    ROUNDS, commands_word, digits_of, id_at, path_of, person_path, push_button, push_choice,
    push_form, push_round_form, push_text_field, push_unit_field, push_unseen,
};
pub use frame::{push_bottom, push_top};
pub use hidden::push_hidden;
pub use leaving::may_leave;
pub use line_forms::{ENTERS, LOOKS, push_line, push_lines_form};
pub use looks::{script, style};
pub use pages::{push_end, start_page};
pub use people::{number_of, push_name};
pub use recent::{enters_later, push_recent};
pub use typed::{push_entered, push_shown};
pub use values::{standing, values_of};
