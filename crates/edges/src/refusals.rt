//! The sample with one byte changed, and with two.
use super::answer::ACCEPTED;
use super::changes::{CHANGES, Change};
use super::sample::sample;
use super::tally::Tally;
use std::io;

/// Each change is refused as it says; without one the sample is accepted.
pub fn refusals(tally: &mut Tally<'_>) -> io::Result<()> {
    let heap = tally.heap();
    let file = sample(heap)?.file(heap)?;
    tally.reading("no change", ACCEPTED, &file)?;
    for change in CHANGES.iter() {
        let changed = change.of(heap, &file)?;
        tally.reading(change.name(), change.answer(), &changed)?;
    }
    Ok(())
}

/// A change together with each later one, at another byte, is refused as it is alone.
fn before_later(
    tally: &mut Tally<'_>,
    file: &[u8],
    first: &Change,
    later: &[Change],
) -> io::Result<()> {
    let heap = tally.heap();
    let once = first.of(heap, file)?;
    for second in later.iter().filter(|second| second.at() != first.at()) {
        let twice = second.of(heap, &once)?;
        let name = format!(in heap; "{} and {}", first.name(), second.name())?;
        tally.reading(name, first.answer(), &twice)?;
    }
    Ok(())
}

/// Of two changes the one that reading tests for first gives the answer.
pub fn first_of_two(tally: &mut Tally<'_>) -> io::Result<()> {
    let heap = tally.heap();
    let file = sample(heap)?.file(heap)?;
    for (place, first) in CHANGES.iter().enumerate() {
        before_later(tally, &file, first, &CHANGES[place..])?;
    }
    Ok(())
}
