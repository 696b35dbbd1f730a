//! What a change on a device leads to: which clauses it concerns, and which updates it forms.
#![tactic(auto)]

mod accepted;
mod clauses;
mod comparing;
mod discovering;
mod firing;
mod forming;
mod meeting;
mod members;
mod plan;
mod planned;
mod planning;

pub use accepted::AcceptedBook;
pub use comparing::cells_match;
pub use members::fires;
pub use plan::{Plan, Route};
pub use planned::PlannedBook;
