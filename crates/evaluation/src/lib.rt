//! The value of an expression over a host's cells, and over changes that are not yet written.
#![tactic(auto)]

mod changes;
mod evaluator;
mod operators;
mod preview;
mod stack;

pub use changes::Changes;
pub use evaluator::Evaluator;
pub use operators::{operate, truth};
pub use preview::Preview;
