//! What reading a file answers.
use book::{Draft, read};
use fault::{BookCause, Fault, Layer};
use std::fmt;

/// A file is accepted, or refused with a fault.
#[derive(Clone, Copy, PartialEq, Eq)]
pub struct Answer(pub Result<(), Fault>);

/// The answer to a file that is accepted.
pub const ACCEPTED: Answer = Answer(Ok(()));

impl Answer {
    /// The answer to a file that is refused, with the two numbers of the place.
    pub fn refused(cause: BookCause, a: u32, b: u32) -> Answer {
        Answer(Err(Fault {
            layer: Layer::Book(cause),
            place: (a, b),
        }))
    }

    /// The answer to reading a file into a new draft.
    pub fn to(file: &[u8]) -> Answer {
        let mut draft = Draft::smallest();
        Answer(read(file, &mut draft))
    }
}

/// `ok`, or the text of the fault.
impl fmt::Display for Answer {
    fn fmt<W: fmt::Write>(&self, f: &mut fmt::Formatter<W>) -> fmt::Result {
        match self.0 {
            Ok(()) => write!(f, "ok"),
            Err(fault) => write!(f, "{fault}"),
        }
    }
}
