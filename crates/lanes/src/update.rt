//! Updates, as the lanes hold them.
use book::{Part, SLOTS};

/// A part of a rule, evaluated for a device: the first `count` values, one for each target of the part.
// Fixed memory: the values beside their count.
#[derive(Clone, Copy)]
pub struct Update {
    pub device: u8,
    pub rule: u8,
    pub part: Part,
    pub count: u8,
    pub values: [i32; SLOTS],
}
