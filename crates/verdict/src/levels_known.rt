//! Whether the levels of a book are those of an order.
ghost use Rattle.std.specs.Prelude.{◌≡◌, ◌<◌};
ghost use Rattle.levels.specs.Scales.{scaled};
ghost use Rattle.book.specs.Means.{means};
ghost use Rattle.verdict.specs.Verdicts.{level_checked, levels_checked};

use book::{Book, CheckedBook};
use fault::{Fault, Layer, OrderCause};
use levels::{Order, Scale};
use meaning::through;

/// The level of a resource is one of the order.
fn level_known(book: &Book, scale: &Scale, resource: usize) -> Result<(), Fault>
    requires { resource < 32 }
    ensures { result ≡ level_checked (scaled scale.now) (means book.now) resource tt }
{
    let level = book.level_of(resource);
    if level >= scale.count() {
        return Err(Fault {
            layer: Layer::Order(OrderCause::Level),
            place: (resource as u32, level),
        });
    }
    Ok(())
}

/// Each level of the book is one of the order.
pub(crate) fn levels_known(book: &CheckedBook<'_>, scale: &Scale) -> Result<(), Fault>
    ensures { result ≡ levels_checked (scaled scale.now) (means book.now.book.now) }
{
    let book = book.book;
    through(book.used_levels().len(), (), |resource, ()| {
        level_known(book, scale, resource)
    })
}
