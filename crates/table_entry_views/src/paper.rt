//! Paper: the sheet of a round for the wall, blank scorecards, and labels.

mod blank_cards;
mod card_foot;
mod card_order;
mod frame;
mod group_lists;
mod labels;
mod wall;

pub use blank_cards::scorecards;
pub use labels::labels_page;
pub use wall::wall_sheet;
