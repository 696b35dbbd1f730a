//! What is seen of a lane.
ghost use Rattle.std.specs.Prelude.{◌≡◌, length};
ghost use Rattle.std.specs.Option.{option_map};
ghost use Rattle.lanes.specs.Updates.{update_means};
ghost use Rattle.lanes.specs.View.{state_at, view, first};

use super::number::LaneNumber;
use super::store::{IDLE, LANE_LENGTH, LaneState, Lanes};
use super::update::Update;

impl Lanes {
    /// The state of a lane, which is idle past the last one.
    fn state(&self, lane: u32) -> LaneState
        ensures { result ≡ state_at self.now lane }
    {
        self.states.get(lane as usize).copied().unwrap_or(IDLE)
    }

    /// The oldest update that waits in a lane, or nothing where none waits.
    #[tactic(auto, using(crate::proofs::Views::view_first))]
    pub fn head(&self, lane: LaneNumber) -> Option<Update>
        ensures { option_map update_means result ≡ first (view self.now lane.number).waiting }
    {
        let some = self.state(lane.number).waiting > 0;
        some.then_some(self.store[LANE_LENGTH * lane.number as usize])
    }

    /// How many updates wait in a lane; past the last lane none does.
    #[tactic(auto, using(crate::proofs::Views::view_long))]
    pub fn waiting(&self, lane: u32) -> u32
        ensures { result ≡ length (view self.now lane).waiting }
    {
        u32::from(self.state(lane).waiting)
    }

    /// How many updates found no room in a lane, up to the most that a `u32` can say.
    #[tactic(auto, unfolding(crate::specs::View::view))]
    pub fn lost(&self, lane: u32) -> u32
        ensures { result ≡ (view self.now lane).lost }
    {
        self.state(lane).lost
    }

    /// Whether a ticket for the head of a lane is out.
    #[tactic(auto, unfolding(crate::specs::View::view))]
    pub fn is_out(&self, lane: u32) -> bool
        ensures { result ≡ (view self.now lane).out }
    {
        self.state(lane).out
    }
}
