//! Files of their own, with the answers that they are to have.
use super::answer::{ACCEPTED, Answer};
use super::tally::Tally;
use std::{fs, io};

/// The file of a name in a folder.
pub fn file(rt: &HostRuntime, folder: &str, name: &str) -> io::Result<Vec<u8>> {
    let path = format!(in rt.alloc(); "{folder}/{name}.abu")?;
    fs::read(rt, &path)
}

/// Every book of the list is accepted.
pub fn accepted(tally: &mut Tally<'_>) -> io::Result<()> {
    let rt = tally.rt;
    let list = fs::read_to_string(rt, "books.txt")?;
    for name in list.lines() {
        let book = file(rt, "books", name)?;
        tally.reading(name, ACCEPTED, &book)?;
    }
    Ok(())
}

/// Every damaged file of the list has the answer that stands after its name.
pub fn damaged(tally: &mut Tally<'_>) -> io::Result<()> {
    let rt = tally.rt;
    let list = fs::read_to_string(rt, "damage.txt")?;
    for line in list.lines() {
        let (name, expected) = line.split_once(' ').unwrap_or((line, ""));
        let book = file(rt, "damage", name)?;
        let came = Answer::to(&book).to_string(tally.heap())?;
        tally.hold(name, expected, came.as_str())?;
    }
    Ok(())
}
