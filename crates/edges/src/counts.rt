//! How many devices, resources, rules, clauses and slots a book may have.
use super::answer::{ACCEPTED, Answer};
use super::builder::{Builder, Clause, Rule, Slot};
use super::code::code;
use super::tally::Tally;
use book::Kind;
use fault::BookCause;
use meaning::Instruction;
use std::alloc::{AllocError, Global};
use std::io;
use std::ops::RangeInclusive;

/// A count in the header of a file.
#[derive(Clone, Copy, PartialEq, Eq)]
pub enum Count {
    Devices,
    Resources,
    Rules,
    Clauses,
}

impl Count {
    /// The byte of the header that has the count.
    fn byte(self) -> u32 {
        match self {
            Count::Devices => 4,
            Count::Resources => 5,
            Count::Rules => 6,
            Count::Clauses => 7,
        }
    }

    /// The sizes that are accepted.
    fn bounds(self) -> RangeInclusive<usize> {
        match self {
            Count::Devices => 1..=16,
            Count::Resources => 1..=32,
            Count::Rules | Count::Clauses => 0..=32,
        }
    }
}

/// The code of a read of resource 0.
fn read(heap: Global) -> Result<Vec<u8>, AllocError> {
    code(heap, &[Instruction::Own(0)])
}

/// A rule of device 0 without assignments, which reads resource 0.
fn plain_rule(heap: Global) -> Result<Rule, AllocError> {
    Ok(Rule {
        carriers: 1,
        events: 1,
        kind: Kind::Local,
        condition: read(heap)?,
        defaults: Vec::new(heap),
        tasks: Vec::new(heap),
    })
}

/// A clause of device 0, which reads resource 0.
fn plain_clause(heap: Global) -> Result<Clause, AllocError> {
    let test = read(heap)?;
    Ok(Clause { device: 0, test })
}

/// A book with one of each but for one count. Each device has a cell for resource 0 alone.
fn plain(heap: Global, count: Count, size: usize) -> Result<Builder, AllocError> {
    let size_of = |other| if other == count { size } else { 1 };
    let devices = size_of(Count::Devices);
    Ok(Builder {
        levels: vec![in heap; 0; size_of(Count::Resources)]?,
        masks: vec![in heap; 1; devices]?,
        starts: vec![in heap; 0; devices]?,
        rules: (0..size_of(Count::Rules))
            .map(|_| plain_rule(heap))
            .try_collect(heap)?,
        clauses: (0..size_of(Count::Clauses))
            .map(|_| plain_clause(heap))
            .try_collect(heap)?,
    })
}

/// Books at the limits of a count and past them.
pub fn around(tally: &mut Tally<'_>, count: Count) -> io::Result<()> {
    let heap = tally.heap();
    let bounds = count.bounds();
    let most = *bounds.end();
    for size in [0, 1, most, most.saturating_add(1), 255] {
        let expected = if bounds.contains(&size) {
            ACCEPTED
        } else {
            Answer::refused(BookCause::Count, count.byte(), 0)
        };
        let file = plain(heap, count, size)?.file(heap)?;
        tally.reading(size, expected, &file)?;
    }
    Ok(())
}

/// Assignments to the first resources, each of a read.
fn action(heap: Global, size: u8) -> Result<Vec<Slot>, AllocError> {
    (0..size)
        .map(|target| -> Result<Slot, AllocError> {
            let value = read(heap)?;
            Ok(Slot { target, value })
        })
        .try_collect(heap)
}

/// The file of a book of one device with five resources, and of one rule, at 61, with so many assignments.
fn file_of_slots(heap: Global, defaults: u8, tasks: u8) -> Result<Vec<u8>, AllocError> {
    let rule = Rule {
        defaults: action(heap, defaults)?,
        tasks: action(heap, tasks)?,
        ..plain_rule(heap)?
    };
    let book = Builder {
        levels: vec![in heap; 0; 5]?,
        masks: vec![in heap; 0b11111]?,
        starts: vec![in heap; 0; 5]?,
        rules: vec![in heap; rule]?,
        clauses: Vec::new(heap),
    };
    book.file(heap)
}

/// Four assignments of each action are accepted, and five are refused at their count.
pub fn slots(tally: &mut Tally<'_>) -> io::Result<()> {
    let heap = tally.heap();
    let defaults_refused = Answer::refused(BookCause::Field, 68, 0);
    let tasks_refused = Answer::refused(BookCause::Field, 69, 0);
    let cases = [
        (0, 0, ACCEPTED),
        (4, 0, ACCEPTED),
        (0, 4, ACCEPTED),
        (4, 4, ACCEPTED),
        (5, 0, defaults_refused),
        (0, 5, tasks_refused),
        (5, 5, defaults_refused),
        (255, 4, defaults_refused),
    ];
    for (defaults, tasks, expected) in cases {
        let file = file_of_slots(heap, defaults, tasks)?;
        let name = format!(in heap; "{defaults} and {tasks}")?;
        tally.reading(name, expected, &file)?;
    }
    Ok(())
}
