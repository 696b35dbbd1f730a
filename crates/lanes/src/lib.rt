//! Lanes: updates that wait in line, level by level, in fixed memory.
#![tactic(auto)]

mod looking;
mod number;
mod queueing;
mod store;
mod stretch;
mod update;

pub use number::LaneNumber;
pub use store::{LANE_LENGTH, LANES, Lanes};
pub use update::Update;

#[cfg(test)]
mod tests;
