//! Texts of people in HTML.

mod escaping;

pub use escaping::push_escaped;
