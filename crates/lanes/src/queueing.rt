//! What happens to a lane: an update arrives, the head is removed, a ticket goes out.
ghost use Rattle.std.specs.Prelude.{◌≡◌, ℕ, ◌+◌, min, [], ◌∷◌};
ghost use Rattle.lanes.specs.Updates.{update_means};
ghost use Rattle.lanes.specs.View.{view};
ghost use Rattle.runs.specs.Lane.{most_lost, empty_lane, accept, served, marked, with_lane};

use super::number::LaneNumber;
use super::store::{IDLE, LANE_LENGTH, LANES, Lanes, STORE};
use super::stretch::{drop_head, put};
use super::update::Update;
use book::{Part, SLOTS};

/// A count of losses with one more, up to the most that it can say.
fn one_more(lost: u32) -> u32
    ensures { result ≡ min most_lost (lost + 1) }
{
    lost.saturating_add(1)
}

impl Lanes {
    /// Lanes in which nothing waits.
    pub fn new() -> Lanes
        ensures { (m : ℕ) → view result m ≡ empty_lane }
    {
        let free = Update {
            device: 0,
            rule: 0,
            part: Part::Default,
            count: 0,
            values: [0; SLOTS],
        };
        Lanes {
            store: [free; STORE],
            states: [IDLE; LANES],
        }
    }

    /// An update goes to the end of its lane, or is counted as lost where 16 wait.
    pub fn arrive(&mut self, lane: LaneNumber, update: Update)
        ensures { view self.new ≡ with_lane (view self.old) lane.number (accept (view self.old lane.number) (update_means update ∷ [])) }
    {
        let lane = lane.number as usize;
        let from = LANE_LENGTH * lane;
        let state = &mut self.states[lane];
        let waiting = usize::from(state.waiting);
        if waiting == LANE_LENGTH {
            state.lost = one_more(state.lost);
        } else {
            state.waiting += 1;
            put(&mut self.store[from..from + LANE_LENGTH], waiting, update);
        }
    }

    /// Removes the head of a lane, if something waits, and no ticket for it is out any more.
    pub fn remove(&mut self, lane: LaneNumber)
        ensures { view self.new ≡ with_lane (view self.old) lane.number (served (view self.old lane.number)) }
    {
        let lane = lane.number as usize;
        let from = LANE_LENGTH * lane;
        drop_head(&mut self.store[from..from + LANE_LENGTH]);
        let state = &mut self.states[lane];
        state.waiting = state.waiting.saturating_sub(1);
        state.out = false;
    }

    /// Marks that a ticket for the head of a lane is out, or that none is.
    pub fn mark(&mut self, lane: LaneNumber, out: bool)
        ensures { view self.new ≡ with_lane (view self.old) lane.number (marked out (view self.old lane.number)) }
    {
        self.states[lane.number as usize].out = out;
    }
}
