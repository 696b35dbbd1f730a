//! Faults: what was refused, in which layer, and where.
#![tactic(auto)]

mod fault;
mod sentence;
mod text;

pub use fault::{
    Argument, BookCause, CallCause, EnsembleCause, FIRST_CLAUSE, Fault, HostCause, Layer,
    OrderCause,
};
pub use sentence::Sentence;
