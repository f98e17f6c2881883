//! The 3x3x3 cube: turned by moves, and solved or not. Kept as corners with twists, edges with
//! flips and the centres' facing, and proved against stickers in space.
#![tactic(auto)]

mod laws;
mod layers;
mod moves;
pub mod notation;
mod pieces;
mod turning;

pub use laws::{fifty_four_stickers, four_quarter_turns};
pub use moves::{Axis, Colour, Kind, Move, Quarter, Side};
pub use turning::Cube;
