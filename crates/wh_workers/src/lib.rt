//! Lists gone over by several workers, with one worker's answers.
#![tactic(auto)]

mod parts;
mod pieces;
#[cfg(test)]
mod tests;
mod workers;

pub use parts::map_parts;
pub use pieces::map_pieces;
pub use workers::Workers;
