//! How deep and how long an expression may be, in each place where one can stand.
use super::answer::{ACCEPTED, Answer};
use super::builder::{Builder, Clause, Rule, Slot};
use super::code::{code, reads_then};
use super::tally::Tally;
use book::Kind;
use fault::BookCause;
use meaning::{Instruction, Operator};
use std::alloc::{AllocError, Global};
use std::io;

/// A place where an expression can stand.
#[derive(Clone, Copy, PartialEq, Eq)]
enum Part {
    Condition,
    Default,
    Task,
    Clause,
}

impl Part {
    const ALL: [Part; 4] = [Part::Condition, Part::Default, Part::Task, Part::Clause];

    fn name(self) -> &'static str {
        match self {
            Part::Condition => "condition",
            Part::Default => "default",
            Part::Task => "task",
            Part::Clause => "clause",
        }
    }

    /// Where the expression begins in the file of `file_with`: the code begins at 99, and a read has two bytes.
    fn place(self) -> u32 {
        match self {
            Part::Condition => 99,
            Part::Default => 101,
            Part::Task => 103,
            Part::Clause => 105,
        }
    }

    /// The answer to a file whose expression in this part is wrong at its byte `at`.
    fn refused(self, at: u32) -> Answer {
        Answer::refused(BookCause::Expression, self.place(), at)
    }
}

/// The file of a book of one device, one resource, one rule and one clause, with an expression in one part and a read in
/// the others.
fn file_with(heap: Global, part: Part, expression: &[u8]) -> Result<Vec<u8>, AllocError> {
    let read = code(heap, &[Instruction::Own(0)])?;
    let code_of = |other: Part| {
        let code = if other == part { expression } else { &read };
        Vec::from_slice(heap, code)
    };
    let slot_of = |other: Part| -> Result<Slot, AllocError> {
        let value = code_of(other)?;
        Ok(Slot { target: 0, value })
    };
    let rule = Rule {
        carriers: 1,
        events: 1,
        kind: Kind::Local,
        condition: code_of(Part::Condition)?,
        defaults: vec![in heap; slot_of(Part::Default)?]?,
        tasks: vec![in heap; slot_of(Part::Task)?]?,
    };
    let test = code_of(Part::Clause)?;
    let book = Builder {
        levels: vec![in heap; 0]?,
        masks: vec![in heap; 1]?,
        starts: vec![in heap; 0]?,
        rules: vec![in heap; rule]?,
        clauses: vec![in heap; Clause { device: 0, test }]?,
    };
    book.file(heap)
}

/// Reads until the stack is so deep, and then sums.
fn deep(heap: Global, depth: usize) -> Result<Vec<u8>, AllocError> {
    reads_then(heap, depth, Operator::Add, depth.saturating_sub(1))
}

/// A depth of 8 is accepted, and one of 9 is refused at the ninth read.
pub fn depth(tally: &mut Tally<'_>) -> io::Result<()> {
    let heap = tally.heap();
    for part in Part::ALL {
        let name = part.name();
        let most = file_with(heap, part, &deep(heap, 8)?)?;
        tally.reading(format!(in heap; "{name}, 8")?, ACCEPTED, &most)?;
        let over = file_with(heap, part, &deep(heap, 9)?)?;
        tally.reading(format!(in heap; "{name}, 9")?, part.refused(16), &over)?;
    }
    Ok(())
}

/// An expression of so many bytes: a read, if there is room for one, and operators of one operand.
fn long(heap: Global, size: usize) -> Result<Vec<u8>, AllocError> {
    match size.checked_sub(2) {
        Some(left) => reads_then(heap, 1, Operator::Not, left),
        None => reads_then(heap, 0, Operator::Not, size),
    }
}

/// Some lengths in one part: 2 to 64 bytes are accepted, since no expression of one byte has an operand.
fn lengths_of(tally: &mut Tally<'_>, part: Part) -> io::Result<()> {
    let heap = tally.heap();
    let name = part.name();
    let cases = [
        (0, part.refused(0)),
        (1, part.refused(0)),
        (2, ACCEPTED),
        (64, ACCEPTED),
        (65, part.refused(0)),
    ];
    for (size, expected) in cases {
        let file = file_with(heap, part, &long(heap, size)?)?;
        tally.reading(format!(in heap; "{name}, {size}")?, expected, &file)?;
    }
    Ok(())
}

/// Some lengths in each part.
pub fn length(tally: &mut Tally<'_>) -> io::Result<()> {
    for part in Part::ALL {
        lengths_of(tally, part)?;
    }
    Ok(())
}
