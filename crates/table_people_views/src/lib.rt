//! The pages of the score table about people and about lists of commands.
#![tactic(auto)]

mod importing;
mod people;
mod person;
mod preview;
mod refused;
mod waiting;

pub use importing::import_page;
pub use people::people_page;
pub use person::person_page;
pub use preview::{PreviewedCommand, preview_page};
pub use refused::{faults_page, refused_page};
pub use waiting::waiting_page;
