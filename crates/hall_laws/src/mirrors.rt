//! What a mirror prints is what the desks of a hall print.

mod laws;

pub use laws::mirrors_print_what_desks_print;
