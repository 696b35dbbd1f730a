//! A scale is an order.
ghost use Rattle.std.specs.Prelude.{◌≡◌};
ghost use Rattle.levels.specs.Tables.{looked_up};
ghost use Rattle.levels.specs.Scales.{scaled, scaled_meets};

use super::order::Order;
use super::scale::{Pair, Scale};

impl Scale {
    /// What the order says of two levels; nothing where one is no level.
    fn pair(&self, a: u32, b: u32) -> Option<Pair>
        ensures { result ≡ looked_up self.now.count self.now.pairs a b }
    {
        (a < self.count && b < self.count).then(|| self.pairs[(16 * a + b) as usize])
    }
}

impl Order for Scale {
    ghost ranks = { scaled };

    ghost meets = { scaled_meets };

    ghost lawful = { λ s. s.lawful };

    ghost meeting = { λ s. s.meeting };

    fn count(&self) -> u32 {
        self.count
    }

    fn at_or_below(&self, a: u32, b: u32) -> bool {
        self.pair(a, b).is_some_and(|pair| pair.below)
    }

    fn meet(&self, a: u32, b: u32) -> u32 {
        self.pair(a, b).map_or(0, |pair| u32::from(pair.meet))
    }
}
