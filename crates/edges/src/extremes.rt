//! The smallest and the largest file.
use super::answer::{ACCEPTED, Answer};
use super::builder::{Builder, Clause, Rule, Slot};
use super::code::longest;
use super::tally::Tally;
use book::{CELLS, CLAUSES, DEVICES, Kind, RESOURCES, RULES};
use fault::BookCause;
use std::alloc::{AllocError, Global};
use std::io;

/// The file of one device without a cell, and one resource.
fn smallest(heap: Global) -> Result<Vec<u8>, AllocError> {
    let book = Builder {
        levels: vec![in heap; 0]?,
        masks: vec![in heap; 0]?,
        starts: Vec::new(heap),
        rules: Vec::new(heap),
        clauses: Vec::new(heap),
    };
    book.file(heap)
}

/// Four assignments of the longest values.
fn full_action(heap: Global) -> Result<Vec<Slot>, AllocError> {
    (28..32)
        .map(|target| -> Result<Slot, AllocError> {
            let value = longest(heap)?;
            Ok(Slot { target, value })
        })
        .try_collect(heap)
}

/// A rule with eight assignments.
fn full_rule(heap: Global) -> Result<Rule, AllocError> {
    Ok(Rule {
        carriers: u16::MAX,
        events: u32::MAX,
        kind: Kind::Remote,
        condition: longest(heap)?,
        defaults: full_action(heap)?,
        tasks: full_action(heap)?,
    })
}

/// A clause of the last device.
fn full_clause(heap: Global) -> Result<Clause, AllocError> {
    let test = longest(heap)?;
    Ok(Clause { device: 15, test })
}

/// The file of the book that has as much of all as there can be.
pub fn largest(heap: Global) -> Result<Vec<u8>, AllocError> {
    let book = Builder {
        levels: vec![in heap; 0; RESOURCES]?,
        masks: vec![in heap; u32::MAX; DEVICES]?,
        starts: vec![in heap; -1; CELLS]?,
        rules: (0..RULES).map(|_| full_rule(heap)).try_collect(heap)?,
        clauses: (0..CLAUSES).map(|_| full_clause(heap)).try_collect(heap)?,
    };
    book.file(heap)
}

/// The two files have their sizes and are accepted; a byte more, less or changed in the largest is seen.
pub fn extremes(tally: &mut Tally<'_>) -> io::Result<()> {
    let heap = tally.heap();
    let file = smallest(heap)?;
    tally.hold("smallest, bytes", 37, file.len())?;
    tally.reading("smallest", ACCEPTED, &file)?;
    let mut file = largest(heap)?;
    tally.hold("largest, bytes", 24512, file.len())?;
    tally.reading("largest", ACCEPTED, &file)?;
    let wrong_pair = Answer::refused(BookCause::Frame, 28, 0);
    file.push(0)?;
    tally.reading("a byte more", wrong_pair, &file)?;
    file.truncate(24511);
    tally.reading("a byte less", wrong_pair, &file)?;
    let wrong_code = Answer::refused(BookCause::Expression, 24448, 63);
    file.push(15)?;
    tally.reading("the last byte changed", wrong_code, &file)
}
