//! What the flows of one row have in common.
use super::flow_kind::FlowKind;

/// A row of the list: the flows by one rule and part, in one kind. A clause has the number after the rules, and the part 0.
#[derive(Clone, Copy)]
pub(crate) struct Row {
    pub rule: u8,
    // A byte of the list and no `Part`, since a clause has none.
    pub part: u8,
    pub kind: FlowKind,
}
