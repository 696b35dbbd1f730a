//! A fault in a sentence for people.
ghost use Rattle.std.specs.Prelude.{◌≡◌, Some};
ghost use Rattle.fault.specs.Argument.{argument_of, shown_argument};

use super::fault::{
    Argument, BookCause, CallCause, EnsembleCause, FIRST_CLAUSE, Fault, HostCause, Layer,
    OrderCause,
};
use std::fmt;

/// A fault that prints as a full sentence, with its place in words.
#[derive(Clone, Copy)]
pub struct Sentence(pub Fault);

/// The argument that a place names by number; one that is not 1, 2 or 3 is taken for that of a count.
impl From<u32> for Argument {
    ghost from_gives = { λ number argument. argument ≡ argument_of number };

    fn from(number: u32) -> Argument {
        match number {
            1 => Argument::Device,
            2 => Argument::Resource,
            3 => Argument::Level,
            _ => Argument::Count,
        }
    }
}

/// The argument in words.
impl fmt::Display for Argument {
    ghost output = { λ argument. Some (shown_argument argument) };

    fn fmt<W: fmt::Write>(&self, f: &mut fmt::Formatter<W>) -> fmt::Result {
        match self {
            Argument::Device => write!(f, "device"),
            Argument::Resource => write!(f, "resource"),
            Argument::Level => write!(f, "lane or level"),
            Argument::Count => write!(f, "count or run number"),
        }
    }
}

/// A rule or a clause of a book, with its number.
#[derive(Clone, Copy)]
enum Part {
    Rule(u32),
    Clause(u32),
}

/// The part that a place names by number: a rule, or from `FIRST_CLAUSE` on a clause.
impl From<u32> for Part {
    fn from(number: u32) -> Part {
        match number.checked_sub(u32::from(FIRST_CLAUSE)) {
            Some(clause) => Part::Clause(clause),
            None => Part::Rule(number),
        }
    }
}

impl fmt::Display for Part {
    fn fmt<W: fmt::Write>(&self, f: &mut fmt::Formatter<W>) -> fmt::Result {
        match self {
            Part::Rule(number) => write!(f, "rule {number}"),
            Part::Clause(number) => write!(f, "clause {number}"),
        }
    }
}

/// A cause of one layer, with the place.
#[derive(Clone, Copy)]
struct At<C> {
    cause: C,
    place: (u32, u32),
}

impl fmt::Display for At<BookCause> {
    fn fmt<W: fmt::Write>(&self, f: &mut fmt::Formatter<W>) -> fmt::Result {
        let (a, b) = self.place;
        let part = Part::from(a);
        match self.cause {
            BookCause::Frame => write!(f, "The header is cut short or wrong at byte {a}."),
            BookCause::Count => write!(f, "The count at byte {a} is outside its bounds."),
            BookCause::Field => write!(f, "The field at byte {a} is wrong."),
            BookCause::Expression => write!(
                f,
                "The expression at byte {a} is wrong at its byte {b}."
            ),
            BookCause::Cell => write!(f, "Device {b} lacks a cell that {part} needs."),
        }
    }
}

impl fmt::Display for At<OrderCause> {
    fn fmt<W: fmt::Write>(&self, f: &mut fmt::Formatter<W>) -> fmt::Result {
        let (a, b) = self.place;
        let part = Part::from(a);
        match self.cause {
            OrderCause::Level => write!(f, "Level {b} of resource {a} is not in the order."),
            OrderCause::Flow => write!(f, "There is a forbidden flow of kind {b} in {part}."),
        }
    }
}

impl fmt::Display for At<CallCause> {
    fn fmt<W: fmt::Write>(&self, f: &mut fmt::Formatter<W>) -> fmt::Result {
        let (a, b) = self.place;
        let argument = Argument::from(a);
        match self.cause {
            CallCause::Argument => write!(f, "The {argument} {b} is out of bounds."),
            CallCause::Buffer => write!(f, "The buffer is too short: {a} needed, {b} given."),
        }
    }
}

impl fmt::Display for At<HostCause> {
    fn fmt<W: fmt::Write>(&self, f: &mut fmt::Formatter<W>) -> fmt::Result {
        let (a, b) = self.place;
        match self.cause {
            HostCause::Cells => write!(
                f,
                "The host's cells differ from the book's at device {a}, resource {b}."
            ),
            HostCause::Absent => write!(f, "Device {a} has no cell for resource {b}."),
        }
    }
}

impl fmt::Display for At<EnsembleCause> {
    fn fmt<W: fmt::Write>(&self, f: &mut fmt::Formatter<W>) -> fmt::Result {
        let (a, b) = self.place;
        match self.cause {
            EnsembleCause::Start => write!(f, "Clause {a} of device {b} is false at the start."),
            EnsembleCause::Input => write!(
                f,
                "The input would make clause {a} of device {b} false."
            ),
            EnsembleCause::Empty => write!(f, "Lane {a} is empty."),
            EnsembleCause::Taken => write!(f, "The ticket of lane {a} is out."),
            EnsembleCause::Ticket => {
                write!(
                    f,
                    "The ticket of lane {a} with run number {b} is of another run, or the lane has no ticket out."
                )
            }
        }
    }
}

/// One sentence, with a full stop and no line end.
impl fmt::Display for Sentence {
    fn fmt<W: fmt::Write>(&self, f: &mut fmt::Formatter<W>) -> fmt::Result {
        let Fault { layer, place } = self.0;
        match layer {
            Layer::Book(cause) => At { cause, place }.fmt(f),
            Layer::Order(cause) => At { cause, place }.fmt(f),
            Layer::Call(cause) => At { cause, place }.fmt(f),
            Layer::Host(cause) => At { cause, place }.fmt(f),
            Layer::Ensemble(cause) => At { cause, place }.fmt(f),
        }
    }
}
