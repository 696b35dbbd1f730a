//! What discovery has to know of each rule and clause, found once and not at each input.
use book::{CLAUSES, RULES};

/// Where the updates of a rule go: the lanes of its two parts, and the cells that a receiver of its task must have.
#[derive(Clone, Copy)]
pub struct Route {
    pub default_lane: u32,
    pub task_lane: u32,
    pub received: u32,
}

/// A route for each rule, and for each clause the set of what it reads.
#[derive(Clone, Copy)]
pub struct Plan {
    pub routes: [Route; RULES],
    pub reads: [u32; CLAUSES],
}
