//! An accepted book.
ghost use Rattle.std.specs.Prelude.{◌≡◌, true};
ghost use Rattle.meaning.specs.Flow.{levelled};
ghost use Rattle.levels.specs.Scales.{scaled};
ghost use Rattle.book.specs.Means.{means};
ghost use Rattle.verdict.specs.Verdicts.{is_sound};

use book::Draft;
use levels::Scale;

/// A book that was judged under an order, which stays with it: well formed, with levels of the order only, and without a
/// forbidden flow.
#[derive(Drop)]
pub struct Accepted<O> {
    pub(crate) draft: Draft,
    pub(crate) order: O,
    pub(crate) scale: Scale,
    ghost levelled: { levelled (scaled scale) (means draft.book) ≡ true },
    ghost sound: { is_sound (scaled scale) (means draft.book) ≡ true },
}
