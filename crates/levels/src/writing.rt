//! Any order written out as a scale, which compares and meets as the order does.
ghost use Rattle.std.specs.Prelude.{◌≡◌, ℕ, ◌<◌, slice_index_or};
ghost use Rattle.levels.specs.Tables.{no_pair, said_at};
ghost use Rattle.levels.specs.Scales.{scaled, scaled_meets};

use super::order::Order;
use super::scale::{Pair, Scale};
use std::array;

/// What an order says of the two levels at a place of the table.
fn pair_at<O: Order>(order: &O, place: usize) -> Pair
    requires { place < 256 }
    ensures { result ≡ said_at (O.Order.ranks order.now) (O.Order.meets order.now) place }
{
    let (a, b) = (place as u32 / 16, place as u32 % 16);
    Pair {
        below: order.at_or_below(a, b),
        meet: order.meet(a, b) as u8,
    }
}

/// What an order says of each two levels.
fn pairs<O: Order>(order: &O) -> [Pair; 256]
    ensures { (k : ℕ) → k < 256 → slice_index_or result k no_pair ≡ said_at (O.Order.ranks order.now) (O.Order.meets order.now) k }
{
    array::from_fn(|place| pair_at(order, place))
}

/// Writes an order out.
pub fn written_out<O: Order>(order: &O) -> Scale
    ensures ranks { scaled result ≡ O.Order.ranks order.now }
    ensures meets { scaled_meets result ≡ O.Order.meets order.now }
{
    Scale {
        count: order.count(),
        pairs: pairs(order),
    }
}
