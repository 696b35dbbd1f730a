//! What a run of an accepted book means, call by call, and the three promises above that meaning.
#![tactic(auto)]

ghost use Rattle.runs.specs.Promises.{Promises};

mod write;

pub use write::Write;

/// Isolation, order of service and invariants hold of every run of every accepted book.
pub fn promises_stand() -> bool
    ensures { Promises }
{
    true
}
