//! The command line: its words, and what they ask for.
use super::failure::Failure;
use std::alloc::Global;

/// The words that the program knows.
const WORDS: [&str; 3] = ["book", "verdict", "help"];

/// The words for orders.
const ORDERS: [&str; 2] = ["ladder", "sets"];

/// How the program is called.
pub const USAGE: &str = "\
usage:
  abu book FILE               print the record of a book file
  abu verdict ladder N FILE   judge it under a ladder of N levels, 1 to 16
  abu verdict sets C FILE     judge it under the sets of C members, 0 to 4
  abu help                    print this text
";

/// An order that a verdict is asked for under. Its size may be out of bounds.
#[derive(Clone, Copy)]
pub enum AskedOrder {
    Ladder { levels: u32 },
    Sets { members: u32 },
}

impl AskedOrder {
    /// The order that its word and its size ask for.
    fn of<'a>(heap: Global, word: &'a str, size: &'a str) -> Result<AskedOrder, Failure<'a>> {
        match (word, size.parse::<u32>()) {
            ("ladder", Ok(levels)) => Ok(AskedOrder::Ladder { levels }),
            ("sets", Ok(members)) => Ok(AskedOrder::Sets { members }),
            ("ladder" | "sets", Err(_)) => Err(Failure::NoSize(size)),
            _ => Err(Failure::unknown_word(heap, word, &ORDERS)?),
        }
    }
}

/// What is asked for, of the file at a path.
#[derive(Clone, Copy)]
pub enum Command<'a> {
    Help,
    Book { path: &'a str },
    Verdict { order: AskedOrder, path: &'a str },
}

impl<'a> Command<'a> {
    /// The command that the arguments spell.
    pub fn of(heap: Global, arguments: &'a [String]) -> Result<Command<'a>, Failure<'a>> {
        let [word, rest @ ..] = arguments else {
            return Ok(Command::Help);
        };
        match (word.as_str(), rest) {
            ("help", []) => Ok(Command::Help),
            ("book", [path]) => Ok(Command::Book {
                path: path.as_str(),
            }),
            ("verdict", [order, size, path]) => Ok(Command::Verdict {
                order: AskedOrder::of(heap, order.as_str(), size.as_str())?,
                path: path.as_str(),
            }),
            ("help" | "book" | "verdict", _) => Err(Failure::Miscounted),
            (other, _) => Err(Failure::unknown_word(heap, other, &WORDS)?),
        }
    }
}
