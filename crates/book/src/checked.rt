//! Parts of a well-formed book, lent with what is known of them.
ghost use Rattle.std.specs.Prelude.{◌<◌};
ghost use Rattle.meaning.specs.WellFormed.{WellFormed};
ghost use Rattle.book.specs.Means.{means};
ghost use Rattle.book.specs.Rights.{RightCode, RightSlot, RightAction, RightRule, RightClause, Numbered, Counted};

use super::book::Book;
use super::rule::{Action, Clause, Rule, Slot};

/// A book that is well formed.
#[derive(Clone, Copy)]
pub struct CheckedBook<'a> {
    pub book: &'a Book,
    ghost formed: { WellFormed (means book.now) },
}

/// The code of an expression: it can be evaluated, and each resource that it reads is below 32.
#[derive(Clone, Copy)]
pub struct CheckedCode<'a> {
    pub bytes: &'a [u8],
    ghost right: { RightCode bytes.now },
}

/// An assignment to a resource below 32, of code that is right.
#[derive(Clone, Copy)]
pub struct CheckedSlot<'a> {
    pub book: &'a Book,
    pub slot: &'a Slot,
    ghost right: { RightSlot book.now slot.now },
}

/// An action that is right in a book.
#[derive(Clone, Copy)]
pub struct CheckedAction<'a> {
    pub book: &'a Book,
    pub action: &'a Action,
    ghost right: { RightAction book.now action.now },
}

/// A rule that is right in a book.
#[derive(Clone, Copy)]
pub struct CheckedRule<'a> {
    pub book: &'a Book,
    pub rule: &'a Rule,
    ghost right: { RightRule book.now rule.now },
}

/// A rule of a well-formed book, with its number.
#[derive(Clone, Copy)]
pub struct NumberedRule<'a> {
    pub of: CheckedRule<'a>,
    pub number: u8,
    ghost formed: { WellFormed (means of.book.now) },
    ghost numbered: { Numbered of.book.now number of.rule.now },
}

/// A clause that is right in a book, on one of its devices.
#[derive(Clone, Copy)]
pub struct CheckedClause<'a> {
    pub book: &'a Book,
    pub clause: &'a Clause,
    ghost right: { RightClause book.now clause.now },
    ghost near: { clause.now.device < 16 },
}

/// A clause that is right in a book, with its number.
#[derive(Clone, Copy)]
pub struct NumberedClause<'a> {
    pub of: CheckedClause<'a>,
    pub number: u8,
    ghost counted: { Counted of.book.now number of.clause.now },
    ghost early: { number < 32 },
}
