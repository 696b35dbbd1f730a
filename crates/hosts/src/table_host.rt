//! A host that holds the values itself.
ghost use Rattle.std.specs.Prelude.{◌≡◌, ◌/◌, ◌%◌, ◌<◌, []};
ghost use Rattle.runs.specs.Table.{cell};
ghost use Rattle.book.specs.Means.{means};
ghost use Rattle.hosts.specs.Tables.{laid_out, at_start, in_rows};
ghost use Rattle.hosts.specs.Words.{has_cell, word};

use super::cells::Cells;
use super::host::Host;
use book::{CELLS, RESOURCES};
use std::array;
use verdict::Accepted;

/// Keeps the cells of a book, and a value for each: the one of the device d and the resource r at 32 × d + r.
#[derive(Drop)]
pub struct TableHost {
    pub(crate) cells: Cells,
    pub(crate) values: [i32; CELLS],
}

/// The start at a place in rows of 32, or 0 where there is no cell.
fn start(starts: &[i32], cells: &Cells, place: usize) -> i32
    requires { place < 512 }
    ensures { result ≡ cell (laid_out (has_cell cells.now.masks) (word cells.now.masks) starts.now) (place / 32) (place % 32) }
{
    let device = (place / RESOURCES) as u32;
    let resource = (place % RESOURCES) as u32;
    let word = cells.word(device, resource);
    word.and_then(|word| starts.get(word).copied()).unwrap_or(0)
}

impl TableHost {
    /// A host with the cells of an accepted book, each at its start.
    pub fn new<O>(accepted: &Accepted<O>) -> TableHost
        ensures { in_rows result.cells.masks result.values ≡ at_start (means accepted.now.draft.book) }
    {
        let book = accepted.book();
        let cells = Cells::of(book);
        let starts = book.used_starts();
        let values = array::from_fn(|place| start(starts, &cells, place));
        TableHost { cells, values }
    }
}

impl Host for TableHost {
    ghost table = { λ h. in_rows h.cells.masks h.values };

    ghost frame = { λ h. record { masks = h.cells.masks; lent = []; beyond = [] } };

    fn read(&self, device: u32, resource: u32) -> Option<i32> {
        self.cells
            .place(device, resource)
            .map(|place| self.values[place])
    }

    fn write(&mut self, device: u32, resource: u32, value: i32) -> bool {
        match self.cells.place(device, resource) {
            Some(place) => {
                self.values[place] = value;
                true
            }
            None => false,
        }
    }
}
