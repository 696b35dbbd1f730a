//! What a draft holds after a reading.
use super::answer::{ACCEPTED, Answer};
use super::changes::CHANGES;
use super::extremes::largest;
use super::sample::sample;
use super::tally::Tally;
use book::{Book, Draft, read};
use std::io;

/// The counts, and a few fields, of the sample.
fn is_sample(tally: &mut Tally<'_>, book: &Book) -> io::Result<()> {
    tally.hold("devices", 3, book.device_count)?;
    tally.hold("resources", 4, book.resource_count)?;
    tally.hold("cells", 9, book.cell_count)?;
    tally.hold("rules", 2, book.rule_count)?;
    tally.hold("clauses", 2, book.clause_count)?;
    tally.hold("code", 48, book.code_size)?;
    tally.hold("fourth start", 40, book.starts[3])?;
    tally.hold("seventh start", -7, book.starts[6])?;
    tally.hold("events of the second rule", 0b0110, book.rules[1].events)
}

/// A draft that held the largest book and reads the sample holds the sample.
pub fn filled(tally: &mut Tally<'_>) -> io::Result<()> {
    let heap = tally.heap();
    let mut draft = Draft::smallest();
    let first = read(&largest(heap)?, &mut draft);
    tally.hold("largest", ACCEPTED, Answer(first))?;
    tally.hold("largest, code", 20480, draft.book().code_size)?;
    let second = read(&sample(heap)?.file(heap)?, &mut draft);
    tally.hold("sample", ACCEPTED, Answer(second))?;
    is_sample(tally, draft.book())
}

/// A draft that holds a book refuses another file and still holds the book.
fn is_kept(held: &[u8], refused: &[u8]) -> bool {
    let mut before = Draft::smallest();
    let mut after = Draft::smallest();
    let is_held = read(held, &mut before).is_ok() && read(held, &mut after).is_ok();
    is_held && read(refused, &mut after).is_err() && before.book() == after.book()
}

/// Every change of the sample leaves a book as it was.
fn kept_over(tally: &mut Tally<'_>, held: &[u8]) -> io::Result<()> {
    let heap = tally.heap();
    let file = sample(heap)?.file(heap)?;
    for change in CHANGES.iter() {
        let changed = change.of(heap, &file)?;
        tally.hold(change.name(), true, is_kept(held, &changed))?;
    }
    Ok(())
}

/// Refused files leave the largest book and the sample as they are.
pub fn kept(tally: &mut Tally<'_>) -> io::Result<()> {
    let heap = tally.heap();
    kept_over(tally, &largest(heap)?)?;
    kept_over(tally, &sample(heap)?.file(heap)?)
}
