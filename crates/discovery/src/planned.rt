//! A book with its plan.
ghost use Rattle.meaning.specs.WellFormed.{WellFormed};
ghost use Rattle.book.specs.Means.{means};
ghost use Rattle.discovery.specs.Plans.{Ready};

use super::plan::Plan;
use book::Book;

/// A well-formed book, and a plan that has the cells of its routes and what its clauses read.
#[derive(Clone, Copy)]
pub struct PlannedBook<'a> {
    pub book: &'a Book,
    pub plan: &'a Plan,
    ghost formed: { WellFormed (means book.now) },
    ghost ready: { Ready (means book.now) plan.now },
}
