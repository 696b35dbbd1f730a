//! The layers, their causes, and the fault that names one of them with its place.

/// The number by which a place, as the list of flows, names the first clause, after those of the rules.
pub const FIRST_CLAUSE: u8 = 32;

/// Why a book file is not read.
#[derive(Clone, Copy, PartialEq, Eq, Debug)]
pub enum BookCause {
    Frame,
    Count,
    Field,
    Expression,
    Cell,
}

/// Why a book is not accepted under an order.
#[derive(Clone, Copy, PartialEq, Eq, Debug)]
pub enum OrderCause {
    Level,
    Flow,
}

/// Why the arguments of a call are refused.
#[derive(Clone, Copy, PartialEq, Eq, Debug)]
pub enum CallCause {
    Argument,
    Buffer,
}

/// What the first number of the place of an `Argument` refusal names.
#[derive(Clone, Copy, PartialEq, Eq, Debug)]
pub enum Argument {
    Device = 1,
    Resource = 2,
    /// A lane or a level.
    Level = 3,
    /// A count or a run number.
    Count = 4,
}

/// Why a host does not serve a book.
#[derive(Clone, Copy, PartialEq, Eq, Debug)]
pub enum HostCause {
    Cells,
    Absent,
}

/// Why a running ensemble, or the start of one, refuses.
#[derive(Clone, Copy, PartialEq, Eq, Debug)]
pub enum EnsembleCause {
    Start,
    Input,
    Empty,
    Taken,
    Ticket,
}

/// The layer that refuses, with its cause.
#[derive(Clone, Copy, PartialEq, Eq, Debug)]
pub enum Layer {
    Book(BookCause),
    Order(OrderCause),
    Call(CallCause),
    Host(HostCause),
    Ensemble(EnsembleCause),
}

/// A refusal: the layer with its cause, and the two numbers of the place.
#[derive(Clone, Copy, PartialEq, Eq, Debug)]
pub struct Fault {
    pub layer: Layer,
    pub place: (u32, u32),
}
