//! A refusal of the reader.
ghost use Rattle.std.specs.Prelude.{◌≡◌, ◌^◌, ◌<◌};
ghost use Rattle.meaning.specs.Checks.{book_fault};

use fault::{BookCause, Fault, Layer};

pub(crate) fn refusal(cause: BookCause, a: usize, b: usize) -> Fault
    requires first { a < 2 ^ 32 }
    requires second { b < 2 ^ 32 }
    ensures { result ≡ book_fault cause a b }
{
    Fault {
        layer: Layer::Book(cause),
        place: (a as u32, b as u32),
    }
}
