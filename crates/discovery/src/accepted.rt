//! A book and the order that it was accepted under.
ghost use Rattle.runs.specs.Promises.{Accepted};
ghost use Rattle.levels.specs.Scales.{scaled, scaled_meets};
ghost use Rattle.book.specs.Means.{means};

use book::Book;
use levels::Scale;

/// A book that is accepted under an order, which is written out.
#[derive(Clone, Copy)]
pub struct AcceptedBook<'a> {
    pub book: &'a Book,
    pub scale: &'a Scale,
    ghost accepted: { Accepted (scaled scale.now) (scaled_meets scale.now) (means book.now) },
}
