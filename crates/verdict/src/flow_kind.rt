//! The kinds of flows.

/// What lets a source flow to a target. The numbers are those of the list.
#[derive(Clone, Copy, PartialEq, Eq, Debug)]
pub enum FlowKind {
    /// The source is an event of the rule.
    Event = 1,
    /// The condition of the task reads the source.
    Condition = 2,
    /// The expression for the target reads the source.
    Value = 3,
    /// A clause that watches a target of the part reads the source.
    Watched = 4,
    /// A clause reads source and target.
    Clause = 5,
}

/// A number that no kind of flow has.
#[derive(Clone, Copy, PartialEq, Eq, Debug)]
pub struct UnknownFlowKind(pub u8);
