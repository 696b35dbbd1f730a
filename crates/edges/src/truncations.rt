//! A file that breaks off.
use super::answer::{ACCEPTED, Answer};
use super::sample::sample;
use super::sections::{HEADER, Sections};
use super::tally::Tally;
use fault::BookCause;
use std::io;

/// The answer to the first bytes of a file: a header that breaks off is refused at its length, and a later end at the first
/// pair whose section passes it.
fn expected(sections: &Sections, size: usize) -> Answer {
    let at = match sections.first_past(size) {
        Some(pair) if size >= HEADER => pair,
        Some(_) => u32::try_from(size).unwrap_or(u32::MAX),
        None => return ACCEPTED,
    };
    Answer::refused(BookCause::Frame, at, 0)
}

/// The sample, broken off at each of its bytes.
pub fn truncations(tally: &mut Tally<'_>) -> io::Result<()> {
    let heap = tally.heap();
    let sections = sample(heap)?.sections(heap)?;
    let file = sections.file(heap)?;
    for size in (0..file.len()).rev() {
        tally.reading(size, expected(&sections, size), &file[..size])?;
    }
    Ok(())
}
