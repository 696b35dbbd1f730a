//! Whether a host has the cells of a book, no more and no fewer under the book's counts.
ghost use Rattle.std.specs.Prelude.{◌≡◌, ◌<◌, ◌≤◌};
ghost use Rattle.meaning.specs.Book.{resources};
ghost use Rattle.runs.specs.Step.{cell_checked, device_checked, cells_checked};
ghost use Rattle.book.specs.Means.{means};

use book::{Book, CheckedBook};
use fault::{Fault, HostCause, Layer};
use hosts::Host;
use meaning::through;

/// Host and book agree about one cell.
fn cell_matches<H: Host>(book: &Book, host: &H, device: usize, resource: usize) -> Result<(), Fault>
    requires near { device < 16 }
    requires early { resource < 32 }
    ensures { result ≡ cell_checked (means book.now) (H.Host.table host.now) device resource tt }
{
    let in_book = (book.cells_of(device) >> resource) % 2 == 1;
    let place = (device as u32, resource as u32);
    let in_host = host.read(place.0, place.1).is_some();
    if in_book != in_host {
        return Err(Fault {
            layer: Layer::Host(HostCause::Cells),
            place,
        });
    }
    Ok(())
}

/// Host and book agree about the cells of one device.
fn device_matches<H: Host>(book: &Book, host: &H, device: usize) -> Result<(), Fault>
    requires near { device < 16 }
    requires few { resources (means book.now) ≤ 32 }
    ensures { result ≡ device_checked (means book.now) (H.Host.table host.now) device tt }
{
    through(book.used_levels().len(), (), |resource, ()| {
        cell_matches(book, host, device, resource)
    })
}

/// Host and book have the same cells; else the first that differs is refused, by device and then by resource.
pub fn cells_match<H: Host>(book: &CheckedBook<'_>, host: &H) -> Result<(), Fault>
    ensures { result ≡ cells_checked (means book.now.book.now) (H.Host.table host.now) }
{
    let book = book.book;
    through(book.used_cells().len(), (), |device, ()| {
        device_matches(book, host, device)
    })
}
