//! Pages of a competition's file for the board, each in one frame. None of them is a page of the
//! list of results.
#![tactic(auto)]

mod laws;
mod page;
mod paths;
mod psych;
mod psych_rows;

pub use laws::paths_are_apart;
pub use page::file_page;
pub use paths::FileView;
