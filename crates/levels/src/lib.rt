//! Security orders: the interface, ladders and sets.
#![tactic(auto)]

mod ladder;
mod ladder_order;
mod order;
mod scale;
mod scale_order;
mod set_order;
mod set_order_order;
mod writing;

pub use ladder::Ladder;
pub use order::Order;
pub use scale::Scale;
pub use set_order::SetOrder;
pub use writing::written_out;
