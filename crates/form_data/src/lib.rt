//! A body of `multipart/form-data`, as a browser sends a form with a file, read.
//!
//! [`boundary_of`] takes the boundary from a Content-Type, and [`parts`] the named parts from a
//! body. Nothing is copied: a part lends its bytes from the body. [`browsers_are_read`] is the law
//! that what a browser writes reads back.
#![tactic(auto)]

mod bodies;
mod cutting;
mod headers;
mod laws;

pub use bodies::{Part, parts};
pub use headers::boundary_of;
pub use laws::browsers_are_read;
