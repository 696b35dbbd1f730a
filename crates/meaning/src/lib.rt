//! What a book is, what its file is, and what reading it answers: definitions, and the laws that stand above them.
#![tactic(auto)]

ghost use Rattle.meaning.specs.Exact.{Sound, Complete, Single};
ghost use Rattle.meaning.specs.FlowList.{Listed, Emptied};

mod checks;
mod instruction;

pub use checks::through;
pub use instruction::{Instruction, Operator};

/// Reading accepts exactly the files of well-formed books and answers that book, so no two files yield one book.
pub fn reading_is_exact() -> bool
    ensures sound { Sound }
    ensures complete { Complete }
    ensures single { Single }
{
    true
}

/// The list of flows holds exactly those that the order forbids, each once, ascending; so it is empty exactly where the book is
/// sound.
pub fn flows_are_listed() -> bool
    ensures listed { Listed }
    ensures emptied { Emptied }
{
    true
}
