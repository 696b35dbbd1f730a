//! A book and the order that it is judged under.
ghost use Rattle.std.specs.Prelude.{◌≤◌};
ghost use Rattle.meaning.specs.Book.{resources};
ghost use Rattle.book.specs.Means.{means};

use book::Book;
use levels::Scale;

/// A book of at most 32 resources, and the order that its levels are compared by.
#[derive(Clone, Copy)]
pub(crate) struct Case<'a> {
    pub book: &'a Book,
    pub scale: &'a Scale,
    ghost few: { resources (means book.now) ≤ 32 },
}
