//! Pages of HTML: fixed text with holes, and what fills them: HTML, texts of people, which are
//! escaped, and numbers.
#![tactic(auto)]

pub mod board_page;
mod pieces;
pub mod replies;

pub use pieces::{Piece, fill};
