//! What the flows of a part go to and come from.

/// The sets that the flows of one part go to and come from.
#[derive(Clone, Copy)]
pub(crate) struct PartSets {
    pub targets: u32,
    pub events: u32,
    pub condition: u32,
    pub watched: u32,
}
