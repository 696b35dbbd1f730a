//! What the program answers to a command.
use super::command::{AskedOrder, Command, USAGE};
use super::failure::Failure;
use super::leaks::judged;
use super::record::record;
use book::{Draft, read};
use levels::{Ladder, SetOrder};
use std::fs;
use std::rt::Files;

/// Reads the book that a file holds into a draft.
// The draft is lent, since it is large: one that is handed back would have room in each frame that it passes.
fn load<'a>(
    rt: &(impl Files + AllocGlobal),
    path: &'a str,
    draft: &mut Draft,
) -> Result<(), Failure<'a>> {
    let bytes = fs::read(rt, path).map_err(|error| Failure::Unreadable { path, error })?;
    read(bytes.as_slice(), draft)?;
    Ok(())
}

/// The text of the answer to the command that the arguments spell.
pub fn answer<'a>(
    rt: &(impl Files + AllocGlobal),
    arguments: &'a [String],
) -> Result<String, Failure<'a>> {
    let heap = rt.alloc();
    let mut draft = Draft::smallest();
    match Command::of(heap, arguments)? {
        Command::Help => Ok(String::from_str(heap, USAGE)?),
        Command::Book { path } => {
            load(rt, path, &mut draft)?;
            Ok(record(heap, draft.book())?)
        }
        Command::Verdict { order, path } => {
            load(rt, path, &mut draft)?;
            match order {
                AskedOrder::Ladder { levels } => judged(heap, &draft, &Ladder::new(levels)?),
                AskedOrder::Sets { members } => judged(heap, &draft, &SetOrder::new(members)?),
            }
        }
    }
}
