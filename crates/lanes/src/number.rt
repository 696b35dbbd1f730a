//! The numbers of the lanes.
ghost use Rattle.std.specs.Prelude.{◌≡◌, ◌<◌, ◌↔◌, IsSome, IfSome};

use super::store::LANES;

/// The number of a lane, which is below 16. Who knows that of a number writes the struct; else `new` tests it.
#[derive(Clone, Copy, PartialEq, Eq, Debug)]
pub struct LaneNumber {
    pub number: u32,
    ghost small: { number < 16 },
}

impl LaneNumber {
    /// A number as that of a lane, or nothing where there is no lane of it.
    pub fn new(number: u32) -> Option<LaneNumber>
        ensures there { IsSome result ↔ (number < 16) }
        ensures same { IfSome result (λ lane. lane.number ≡ number) }
    {
        if (number as usize) < LANES {
            Some(LaneNumber { number })
        } else {
            None
        }
    }
}
