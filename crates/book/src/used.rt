//! The used fronts of a book's tables, and the code of its expressions.
ghost use Rattle.std.specs.Prelude.{◌≡◌, take};
ghost use Rattle.meaning.specs.Book.{cells_of};
ghost use Rattle.meaning.specs.Bytes.{part};
ghost use Rattle.meaning.specs.Flow.{level};
ghost use Rattle.book.specs.Means.{code_of, means};

use super::book::Book;
use super::bytes::piece;
use super::rule::{Action, Clause, Rule, Slot, Span};

/// The first `count` entries of a table, or all where it has fewer.
fn used_of<T>(table: &[T], count: usize) -> &[T]
    ensures { result.now ≡ take count table.now }
{
    &table[..count.min(table.len())]
}

impl Action {
    /// The slots that are used.
    pub fn used(&self) -> &[Slot]
        ensures { result.now ≡ take self.now.count self.now.slots }
    {
        used_of(&self.slots, usize::from(self.count))
    }
}

impl Book {
    /// The level of each resource.
    pub fn used_levels(&self) -> &[u8]
        ensures { result.now ≡ take self.now.resource_count self.now.levels }
    {
        used_of(&self.levels, self.resource_count)
    }

    /// The mask of cells of each device.
    pub fn used_cells(&self) -> &[u32]
        ensures { result.now ≡ take self.now.device_count self.now.cells }
    {
        used_of(&self.cells, self.device_count)
    }

    /// The start of each cell, by device and then by resource.
    pub fn used_starts(&self) -> &[i32]
        ensures { result.now ≡ take self.now.cell_count self.now.starts }
    {
        used_of(&self.starts, self.cell_count)
    }

    /// The level of a resource, or 0 past the last one.
    pub fn level_of(&self, resource: usize) -> u32
        ensures { result ≡ level (means self.now) resource }
    {
        let level = self.used_levels().get(resource).copied();
        level.map_or(0, u32::from)
    }

    /// The set of a device's cells, which is empty past the last device.
    pub fn cells_of(&self, device: usize) -> u32
        ensures { result ≡ cells_of (means self.now) device }
    {
        self.used_cells().get(device).copied().unwrap_or(0)
    }

    pub fn used_rules(&self) -> &[Rule]
        ensures { result.now ≡ take self.now.rule_count self.now.rules }
    {
        used_of(&self.rules, self.rule_count)
    }

    pub fn used_clauses(&self) -> &[Clause]
        ensures { result.now ≡ take self.now.clause_count self.now.clauses }
    {
        used_of(&self.clauses, self.clause_count)
    }

    /// The bytes of the expression in a span; of a span that passes the end of the code, those that there are.
    pub fn code_of(&self, span: Span) -> &[u8]
        ensures { result.now ≡ part (code_of self.now) span.from span.size }
    {
        let code = used_of(&self.code, self.code_size);
        piece(code, usize::from(span.from), usize::from(span.size))
    }
}
