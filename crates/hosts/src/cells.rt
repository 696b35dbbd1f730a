//! The cells of a book, and the place of each.
ghost use Rattle.std.specs.Prelude.{◌≡◌, ℕ, ◌+◌, ◌*◌, ◌^◌, ◌<◌, ◌≤◌, ◌&&◌, length, slice_index, IsSome, IfSome, nat_lt};
ghost use Rattle.std.specs.Bool.{then_some};
ghost use Rattle.meaning.specs.Book.{cells_of, devices};
ghost use Rattle.meaning.specs.File.{count_cells};
ghost use Rattle.book.specs.Means.{means};
ghost use Rattle.hosts.specs.Words as meant;

use book::{Book, DEVICES, RESOURCES};

/// The cells of a book: the mask of each device. A device that is not there has none.
#[derive(Clone, Copy)]
pub(crate) struct Cells {
    pub(crate) masks: [u32; DEVICES],
    ghost fits: { (d : ℕ) → slice_index masks d < 2 ^ 32 },
}

/// How many cells some masks have together.
pub(crate) fn count(masks: &[u32]) -> usize
    requires { length masks.now ≤ 16 }
    ensures value { result ≡ count_cells masks.now }
    ensures bound { result ≤ 32 * length masks.now }
{
    masks.iter().map(|mask| mask.count_ones() as usize).sum()
}

impl Cells {
    /// The cells of a book.
    pub(crate) fn of(book: &Book) -> Cells
        requires { devices (means book.now) ≤ 16 }
        ensures { (d : ℕ) → slice_index result.masks d ≡ cells_of (means book.now) d }
    {
        let used = book.used_cells();
        let mut masks = [0; DEVICES];
        masks[..used.len()].copy_from_slice(used);
        Cells { masks }
    }

    /// The mask of a device, if it has a cell of a resource.
    #[tactic(auto, using(crate::proofs::Within::no_resource))]
    fn mask(&self, device: u32, resource: u32) -> Option<u32>
        ensures value { result ≡ then_some (meant.has_cell self.now.masks device resource) (slice_index self.now.masks device) }
        ensures inside { IsSome result → (device < 16) × (resource < 32) }
    {
        let mask = *self.masks.get(device as usize)?;
        let there = (resource as usize) < RESOURCES && (mask >> resource) % 2 == 1;
        there.then_some(mask)
    }

    /// The word of a cell that is there: the ones of the masks before, and those of its own mask below its bit.
    #[tactic(auto, using(crate::proofs::Members::ones_below))]
    pub(crate) fn word(&self, device: u32, resource: u32) -> Option<usize>
        ensures { result ≡ then_some (meant.has_cell self.now.masks device resource) (meant.word self.now.masks device resource) }
    {
        let mask = self.mask(device, resource)?;
        let below = mask & ((1 << resource) - 1);
        Some(count(&self.masks[..device as usize]) + below.count_ones() as usize)
    }

    /// The place of a cell that is there, in rows of 32.
    pub(crate) fn place(&self, device: u32, resource: u32) -> Option<usize>
        ensures value { result ≡ then_some (nat_lt resource 32 && meant.has_cell self.now.masks device resource) (32 * device + resource) }
        ensures inside { IfSome result (λ place. place < 512) }
    {
        self.mask(device, resource)
            .map(|_| RESOURCES * device as usize + resource as usize)
    }
}
