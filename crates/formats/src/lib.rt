//! Events and formats: what a competitor's attempts make together, the order of competitors, and
//! how many may advance.
#![tactic(auto)]

mod advance;
mod events;
mod results;
mod styles;

pub use advance::{Advance, MOST_ENTRANTS};
pub use events::{Event, Format, LAST_ROUND, allowed, attempts_of, unit_of};
pub use results::{Averaged, RankKey, average, best, better, is_format_of, key, print_average};
pub use styles::SheetStyle;
