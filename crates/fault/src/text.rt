//! The number of a fault, and its two texts.
ghost use Rattle.std.specs.Prelude.{◌≡◌, Some};
ghost use Rattle.fault.specs.Number.{number, shown_fault};

use super::fault::{BookCause, CallCause, EnsembleCause, Fault, HostCause, Layer, OrderCause};
use std::fmt;

impl Fault {
    /// The number by which documents and programs name the refusal.
    pub fn number(&self) -> u32
        ensures { result ≡ number self.now.layer }
    {
        // A table of the documents, with gaps: an enum inside an enum has no number of its own.
        match self.layer {
            Layer::Book(BookCause::Frame) => 1,
            Layer::Book(BookCause::Count) => 2,
            Layer::Book(BookCause::Field) => 3,
            Layer::Book(BookCause::Expression) => 4,
            Layer::Book(BookCause::Cell) => 5,
            Layer::Order(OrderCause::Level) => 6,
            Layer::Order(OrderCause::Flow) => 7,
            Layer::Call(CallCause::Argument) => 8,
            Layer::Call(CallCause::Buffer) => 9,
            Layer::Host(HostCause::Cells) => 20,
            Layer::Ensemble(EnsembleCause::Start) => 21,
            Layer::Host(HostCause::Absent) => 22,
            Layer::Ensemble(EnsembleCause::Input) => 23,
            Layer::Ensemble(EnsembleCause::Empty) => 24,
            Layer::Ensemble(EnsembleCause::Taken) => 25,
            Layer::Ensemble(EnsembleCause::Ticket) => 26,
        }
    }
}

/// `no NUMBER A B`, in decimal.
impl fmt::Display for Fault {
    ghost output = { λ f. Some (shown_fault f) };

    fn fmt<W: fmt::Write>(&self, f: &mut fmt::Formatter<W>) -> fmt::Result {
        let number = self.number();
        let (a, b) = self.place;
        write!(f, "no {number} {a} {b}")
    }
}
