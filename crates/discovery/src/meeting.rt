//! The meet of the levels of some resources.
ghost use Rattle.std.specs.Prelude.{◌<◌};
ghost use Rattle.meaning.specs.Flow.{level};
ghost use Rattle.levels.specs.Scales.{scaled, scaled_meets};
ghost use Rattle.book.specs.Means.{means};
ghost use Rattle.discovery.specs.Plans.{Comparable, Greatest};

use super::members::Members;
use book::Book;
use levels::{Order, Scale};

/// The greatest level at or below each of some resources.
pub(crate) fn meet_of(book: &Book, scale: &Scale, set: u32) -> u32
    requires some { 0 < set }
    requires comparable { Comparable (scaled scale.now) (scaled_meets scale.now) (level (means book.now)) set }
    ensures { Greatest (scaled scale.now) (level (means book.now)) set result }
{
    Members::of(set)
        .map(|member| book.level_of(member as usize))
        .reduce(|meet, level| scale.meet(meet, level))
        .unwrap_or(0)
}
