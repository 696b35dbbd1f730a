//! The sets are an order.
ghost use Rattle.std.specs.Prelude.{◌≡◌, ◌<◌, MatchResult};
ghost use Rattle.levels.specs.Inclusion.{sets_lawful, sets_meeting};
ghost use Rattle.levels.specs.Orders.{sets, sets_meets, bad_size};

use super::order::Order;
use super::set_order::SetOrder;
use fault::{Argument, CallCause, Fault, Layer};

impl SetOrder {
    /// The sets of 0 to 4 members; another size is refused.
    pub fn new(members: u32) -> Result<SetOrder, Fault>
        ensures { MatchResult result (λ o. o.members ≡ members) (λ f. (4 < members) × (f ≡ bad_size members)) }
    {
        if members > 4 {
            return Err(Fault {
                layer: Layer::Call(CallCause::Argument),
                place: (Argument::Count as u32, members),
            });
        }
        Ok(SetOrder { members })
    }
}

impl Order for SetOrder {
    ghost ranks = { λ o. sets o.members };

    ghost meets = { λ o. sets_meets o.members };

    ghost lawful = { λ o. sets_lawful o.members o.few };

    ghost meeting = { λ o. sets_meeting o.members };

    fn count(&self) -> u32 {
        1 << self.members
    }

    fn at_or_below(&self, a: u32, b: u32) -> bool {
        let count = self.count();
        a < count && b < count && a & b == a
    }

    fn meet(&self, a: u32, b: u32) -> u32 {
        let count = self.count();
        if a < count && b < count { a & b } else { 0 }
    }
}
