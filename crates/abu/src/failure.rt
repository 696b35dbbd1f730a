//! Why a command has no answer.
use super::command::USAGE;
use super::nearest::nearest;
use fault::{Fault, Sentence};
use std::alloc::{AllocError, Global};
use std::error::Error;
use std::{fmt, io};

/// Why a command has no answer. It prints as the text that the program then prints.
#[derive(Debug, Drop)]
pub enum Failure<'a> {
    /// A word of the program with too few or too many words behind it.
    Miscounted,
    /// A word that the program does not know, and the one that was probably meant.
    UnknownWord {
        word: &'a str,
        meant: Option<&'a str>,
    },
    /// A size that is no number.
    NoSize(&'a str),
    /// A file that cannot be read.
    Unreadable {
        path: &'a str,
        error: io::Error,
    },
    /// A file that is no book, or an order that there is not.
    Refused(Fault),
    /// A book that is not accepted under an order, with the lines of its forbidden flows.
    NotAccepted {
        leaks: String,
        fault: Fault,
    },
    /// No memory was left.
    Memory(AllocError),
}

impl<'a> Failure<'a> {
    /// A word that is none of those that the program knows in its place.
    pub fn unknown_word(
        heap: Global,
        word: &'a str,
        words: &[&'a str],
    ) -> Result<Failure<'a>, AllocError> {
        let meant = nearest(heap, word, words)?;
        Ok(Failure::UnknownWord { word, meant })
    }
}

impl From<Fault> for Failure<'_> {
    fn from(fault: Fault) -> Self {
        Failure::Refused(fault)
    }
}

impl From<AllocError> for Failure<'_> {
    fn from(error: AllocError) -> Self {
        Failure::Memory(error)
    }
}

/// The text, each of its lines ended.
impl fmt::Display for Failure<'_> {
    fn fmt<W: fmt::Write>(&self, f: &mut fmt::Formatter<W>) -> fmt::Result {
        match self {
            Failure::Miscounted => write!(f, "{USAGE}"),
            Failure::UnknownWord {
                word,
                meant: Some(meant),
            } => write!(f, "unknown word '{word}': did you mean '{meant}'?\n{USAGE}"),
            Failure::UnknownWord { word, meant: None } => {
                write!(f, "unknown word '{word}'\n{USAGE}")
            }
            Failure::NoSize(size) => write!(f, "'{size}' is no size\n{USAGE}"),
            Failure::Unreadable { path, error } => writeln!(f, "cannot read {path}: {error}"),
            Failure::Refused(fault) => writeln!(f, "{fault}\n{}", Sentence(*fault)),
            Failure::NotAccepted { leaks, fault } => {
                writeln!(f, "{leaks}{fault}\n{}", Sentence(*fault))
            }
            Failure::Memory(error) => writeln!(f, "{error}"),
        }
    }
}

impl Error for Failure<'_> {}
