//! The memory of the lanes.
ghost use Rattle.std.specs.Prelude.{◌≤◌};
ghost use Rattle.runs.specs.Lane.{lane_length, most_lost};

use super::update::Update;

/// How many lanes there are, one for each level.
pub const LANES: usize = 16;
/// The most updates that wait in a lane.
pub const LANE_LENGTH: usize = 16;
/// The most updates that wait at all: each lane is full.
pub const STORE: usize = LANES * LANE_LENGTH;

/// What is kept of a lane beside its records: how many wait, how many found no room, and whether a ticket for the head is out.
#[derive(Clone, Copy)]
pub(crate) struct LaneState {
    pub(crate) waiting: u8,
    pub(crate) lost: u32,
    pub(crate) out: bool,
    ghost short: { waiting ≤ lane_length },
    ghost counted: { lost ≤ most_lost },
}

/// The state of a lane in which nothing has happened.
pub(crate) const IDLE: LaneState = LaneState {
    waiting: 0,
    lost: 0,
    out: false,
};

/// The lanes. Lane m has the stretch of the store that starts at 16 × m: the first records of it wait, the oldest first, as many
/// as its state says.
// Fixed memory: the records of all lanes in one array, of which a lane's stretch is lent.
#[derive(Drop)]
pub struct Lanes {
    pub(crate) store: [Update; STORE],
    pub(crate) states: [LaneState; LANES],
}
