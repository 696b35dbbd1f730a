//! A ladder is an order.
ghost use Rattle.std.specs.Prelude.{◌≡◌, false, ◌&&◌, MatchResult, nat_le};
ghost use Rattle.levels.specs.Orders.{ladder, ladder_meets, bad_size};
ghost use Rattle.std.proofs.Common.{rules, arith};

use super::ladder::Ladder;
use super::order::Order;
use fault::{Argument, CallCause, Fault, Layer};

impl Ladder {
    /// A ladder of 1 to 16 levels; another size is refused.
    pub fn new(levels: u32) -> Result<Ladder, Fault>
        ensures { MatchResult result (λ o. o.levels ≡ levels) (λ f. ((nat_le 1 levels && nat_le levels 16) ≡ false) × (f ≡ bad_size levels)) }
    {
        if !(1..=16).contains(&levels) {
            return Err(Fault {
                layer: Layer::Call(CallCause::Argument),
                place: (Argument::Count as u32, levels),
            });
        }
        Ok(Ladder { levels })
    }
}

impl Order for Ladder {
    ghost ranks = { λ o. ladder o.levels };

    ghost meets = { λ o. ladder_meets o.levels };

    ghost lawful = { first_of (Prim.search rules, Prim.grind (arith, Self.row.coded.inj)) };

    ghost meeting = { first_of (Prim.search rules, Prim.grind (arith, Self.row.coded.inj)) };

    fn count(&self) -> u32 {
        self.levels
    }

    fn at_or_below(&self, a: u32, b: u32) -> bool {
        a < self.levels && b < self.levels && a <= b
    }

    fn meet(&self, a: u32, b: u32) -> u32 {
        if a < self.levels && b < self.levels {
            a.min(b)
        } else {
            0
        }
    }
}
