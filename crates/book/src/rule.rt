//! Rules and clauses, as a book holds them.

/// The most assignments of an action.
pub const SLOTS: usize = 4;

/// A stretch of a book's code: the bytes of one expression.
#[derive(Clone, Copy, PartialEq, Eq, Debug)]
pub struct Span {
    pub from: u16,
    pub size: u16,
}

/// One assignment: the target resource, and the expression for it.
#[derive(Clone, Copy, PartialEq, Eq, Debug)]
pub struct Slot {
    pub target: u8,
    pub value: Span,
}

/// The assignments of a rule's default or task part: the first `count` slots.
// Fixed memory: the slots beside their count.
#[derive(Clone, Copy, PartialEq, Eq, Debug)]
pub struct Action {
    pub count: u8,
    pub slots: [Slot; SLOTS],
}

/// Whether a task is for the device itself or for every other one.
#[derive(Clone, Copy, PartialEq, Eq, Debug)]
pub enum Kind {
    Local,
    Remote,
}

/// A rule: carriers and events are masks of devices and of resources.
#[derive(Clone, Copy, PartialEq, Eq, Debug)]
pub struct Rule {
    pub carriers: u16,
    pub events: u32,
    pub kind: Kind,
    pub condition: Span,
    pub defaults: Action,
    pub tasks: Action,
}

/// An invariant of a device: an expression that has to stay true.
#[derive(Clone, Copy, PartialEq, Eq, Debug)]
pub struct Clause {
    pub device: u8,
    pub test: Span,
}
