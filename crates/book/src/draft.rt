//! The draft of a book, which reading fills and only a judge takes.
ghost use Rattle.meaning.specs.WellFormed.{WellFormed};
ghost use Rattle.book.specs.Means.{means};

use super::book::Book;

/// A book that was read, or the smallest one: well formed, and not yet judged.
#[derive(Drop)]
pub struct Draft {
    pub(crate) book: Book,
    ghost right: { WellFormed (means book) },
}
