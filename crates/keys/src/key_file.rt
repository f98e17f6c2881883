//! The file of a hall's key: read, where nobody but its owner may, and made.

mod fault;
mod files;
mod making;
mod mode;
mod reading;

pub use fault::{KeyFileFault, MakeFault};
pub use files::{KeyFiles, KeySource};
pub use making::{make_key, make_key_at, print_key_line};
pub use mode::is_open_to_others;
pub use reading::{key_from, read_key_at};
