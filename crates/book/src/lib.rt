//! Books: their types, the reader of their files, and the draft that it fills. No heap is used.
#![tactic(auto)]

mod action;
mod book;
mod bytes;
mod cells;
mod checked;
mod checking;
mod draft;
mod expressions;
mod fields;
mod file;
mod fill;
mod header;
mod instructions;
mod layout;
mod offsets;
mod opcode;
mod part;
mod reader;
mod refusal;
mod rule;
mod scope;
mod sets;
mod sides;
mod smallest;
mod spelling;
mod used;

pub use book::{Book, CELLS, CLAUSES, DEVICES, RESOURCES, RULES};
pub use checked::{
    CheckedAction, CheckedBook, CheckedClause, CheckedCode, CheckedRule, CheckedSlot,
    NumberedClause, NumberedRule,
};
pub use draft::Draft;
pub use instructions::Instructions;
pub use opcode::{Row, front, row_of};
pub use part::{Part, UnknownPart};
pub use reader::read;
pub use rule::{Action, Clause, Kind, Rule, SLOTS, Slot, Span};
pub use sets::{reads, with_member};
pub use sides::Side;
