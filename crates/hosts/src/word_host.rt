//! A host that works in words which are lent to it.
ghost use Rattle.std.specs.Prelude.{◌≡◌, [], ◌∷◌, length};
ghost use Rattle.std.specs.Bool.{then_some};
ghost use Rattle.book.specs.Means.{means};
ghost use Rattle.hosts.specs.Frames.{past_cells};
ghost use Rattle.hosts.specs.Lending.{lendable};
ghost use Rattle.hosts.specs.Tables.{reached, in_words};
ghost use Rattle.hosts.specs.Words as meant;

use super::cells::{Cells, count};
use super::host::Host;
use fault::{CallCause, Fault, Layer};
use verdict::Accepted;

/// Keeps the cells of a book, and finds the value of each in a word that is lent to it, as it stands there.
#[derive(Drop)]
pub struct WordHost<'a> {
    pub(crate) cells: Cells,
    pub(crate) words: &'a mut [i32],
}

impl<'a> WordHost<'a> {
    /// Whether so many words are enough: one for each cell of the book. Too few are refused, with both numbers.
    pub fn may_lend<O>(accepted: &Accepted<O>, given: usize) -> Result<(), Fault>
        ensures { result ≡ lendable (means accepted.now.draft.book) given }
    {
        let needed = count(accepted.book().used_cells());
        if given < needed {
            return Err(Fault {
                layer: Layer::Call(CallCause::Buffer),
                place: (needed as u32, given as u32),
            });
        }
        Ok(())
    }

    /// A host with the cells of an accepted book, in words that are lent, as found. Of too few words, it lacks the cells past them.
    #[tactic(auto, using(crate::proofs::Setting::same_tables, crate::proofs::Numbering::same_count))]
    pub fn new<O>(accepted: &Accepted<O>, words: &'a mut [i32]) -> WordHost<'a>
        ensures cells { in_words result.cells.masks ≡ in_words (means accepted.now.draft.book).cells }
        ensures past { past_cells result.cells.masks ≡ past_cells (means accepted.now.draft.book).cells }
        ensures words { result.words.now ≡ words.old }
        ensures lent { result.words.ghost_name ≡ words.entry.ghost_name }
    {
        let cells = Cells::of(accepted.book());
        WordHost { cells, words }
    }

    /// The word of a cell that is there, if it is among those lent.
    fn word(&self, device: u32, resource: u32) -> Option<usize>
        ensures { result ≡ then_some (reached self.now.cells.masks (length self.now.words.now) device resource) (meant.word self.now.cells.masks device resource) }
    {
        self.cells
            .word(device, resource)
            .filter(|word| *word < self.words.len())
    }
}

impl<'a> Host for WordHost<'a> {
    ghost table = { λ h. in_words h.cells.masks h.words.now };

    ghost frame = { λ h. record { masks = h.cells.masks; lent = h.words.ghost_name ∷ []; beyond = past_cells h.cells.masks h.words.now } };

    fn read(&self, device: u32, resource: u32) -> Option<i32> {
        self.word(device, resource).map(|word| self.words[word])
    }

    #[tactic(auto, using(crate::proofs::Setting::past_kept))]
    fn write(&mut self, device: u32, resource: u32, value: i32) -> bool {
        match self.word(device, resource) {
            Some(word) => {
                self.words[word] = value;
                true
            }
            None => false,
        }
    }
}
