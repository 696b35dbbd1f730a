//! The smallest book, and what a draft holds.
ghost use Rattle.std.specs.Prelude.{◌≡◌};
ghost use Rattle.meaning.specs.Book as meant;
ghost use Rattle.book.specs.Means.{means};

use super::book::{Book, CELLS, CLAUSES, CODE, DEVICES, RESOURCES, RULES};
use super::draft::Draft;
use super::rule::{Action, Clause, Kind, Rule, SLOTS, Slot, Span};

const SPAN: Span = Span { from: 0, size: 0 };

const SLOT: Slot = Slot {
    target: 0,
    value: SPAN,
};

const ACTION: Action = Action {
    count: 0,
    slots: [SLOT; SLOTS],
};

const RULE: Rule = Rule {
    carriers: 0,
    events: 0,
    kind: Kind::Local,
    condition: SPAN,
    defaults: ACTION,
    tasks: ACTION,
};

const CLAUSE: Clause = Clause {
    device: 0,
    test: SPAN,
};

impl Draft {
    /// One device, one resource of level 0, nothing more.
    pub fn smallest() -> Draft
        ensures { means result.book ≡ meant.smallest }
    {
        Draft {
            book: Book {
                device_count: 1,
                resource_count: 1,
                cell_count: 0,
                rule_count: 0,
                clause_count: 0,
                code_size: 0,
                levels: [0; RESOURCES],
                cells: [0; DEVICES],
                starts: [0; CELLS],
                rules: [RULE; RULES],
                clauses: [CLAUSE; CLAUSES],
                code: [0; CODE],
            },
        }
    }

    /// The book that the draft holds.
    pub fn book(&self) -> &Book
        ensures { result.now ≡ self.now.book }
    {
        &self.book
    }
}
