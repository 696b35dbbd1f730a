//! A book filled from the bytes of a file that was checked.
ghost use Rattle.std.specs.Prelude.{◌≡◌, ◌+◌, ◌-◌, ◌*◌, ◌^◌, ◌<◌, ◌≤◌, map, length, take, drop};
ghost use Rattle.std.specs.List.{range_with_len};
ghost use Rattle.meaning.specs.Parsed.{spelt};
ghost use Rattle.book.specs.Means.{means};
ghost use Rattle.book.specs.Plan.{plan};

use super::book::Book;
use super::bytes::rest;
use super::file::{File, Right};
use super::offsets::{CLAUSE, HEADER, MASK, RULE, START};
use super::spelling::Spelt;

/// Fills the first `count` entries of a table from the records of `size` bytes that begin at `from`.
fn fill_table<T: Spelt>(table: &mut [T], bytes: &[u8], from: usize, size: usize, count: usize)
    requires { count ≤ length table.old }
    ensures { take count table.new ≡ map (λ k. T.Spelt.spelt bytes.now (from + size * k)) (range_with_len 0 count) }
{
    let mut records = rest(bytes, from);
    // By index, since of a slice that `iter_mut` lent a proof knows no element.
    for k in 0..count {
        table[k] = T::spelt_in(records);
        records = rest(records, size);
    }
}

/// Fills the front of a table with some code.
fn fill_code(table: &mut [u8], code: &[u8])
    requires { length code.now ≤ length table.old }
    ensures { take (length code.now) table.new ≡ code.now }
{
    table[..code.len()].copy_from_slice(code);
}

impl Right<'_> {
    /// Fills a book with what the file spells.
    pub fn fill(&self, book: &mut Book)
        ensures { means book.new ≡ spelt self.now.parsed.file.bytes.now (plan self.now.parsed.file.layout) }
    {
        let File { bytes, layout } = self.parsed.file;
        book.device_count = layout.devices;
        book.resource_count = layout.resources;
        book.cell_count = layout.cells;
        book.rule_count = layout.rules;
        book.clause_count = layout.clauses;
        book.code_size = usize::from(layout.room);
        fill_table(&mut book.levels, bytes, HEADER, 1, layout.resources);
        fill_table(
            &mut book.cells,
            bytes,
            layout.cells_from(),
            MASK,
            layout.devices,
        );
        fill_table(
            &mut book.starts,
            bytes,
            layout.starts_from(),
            START,
            layout.cells,
        );
        fill_table(
            &mut book.rules,
            bytes,
            layout.rules_from(),
            RULE,
            layout.rules,
        );
        fill_table(
            &mut book.clauses,
            bytes,
            layout.clauses_from(),
            CLAUSE,
            layout.clauses,
        );
        fill_code(&mut book.code, rest(bytes, layout.code_from()));
    }
}
