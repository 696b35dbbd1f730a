//! From a well-formed book to its parts.
ghost use Rattle.std.specs.Prelude.{◌≡◌};
ghost use Rattle.meaning.specs.Bytes.{part};
ghost use Rattle.meaning.specs.Expression.{decoded};
ghost use Rattle.book.specs.Means.{code_of};
ghost use Rattle.book.specs.Parts.{action_of};
ghost use Rattle.book.specs.Sides.{reads_of};

use super::checked::{
    CheckedAction, CheckedBook, CheckedClause, CheckedCode, CheckedRule, CheckedSlot,
};
use super::draft::Draft;
use super::part::Part;
use super::sets::reads;
use super::sides::Side;

impl Draft {
    /// The book that the draft holds, which is well formed.
    pub fn checked(&self) -> CheckedBook<'_>
        ensures { result.book.now ≡ self.now.book }
    {
        CheckedBook { book: &self.book }
    }
}

impl CheckedCode<'_> {
    /// The cells of one side that the code reads, beside the members of `set`.
    pub fn reads(&self, set: u32, side: Side) -> u32
        ensures { result ≡ reads_of side set (decoded self.now.bytes.now) }
    {
        reads(set, self.bytes, side)
    }
}

impl<'a> CheckedSlot<'a> {
    /// The code of the value.
    pub fn value(&self) -> CheckedCode<'a>
        ensures { result.bytes.now ≡ part (code_of self.now.book.now) self.now.slot.now.value.from self.now.slot.now.value.size }
    {
        CheckedCode {
            bytes: self.book.code_of(self.slot.value),
        }
    }
}

impl<'a> CheckedRule<'a> {
    /// The code of the task's condition.
    pub fn condition(&self) -> CheckedCode<'a>
        ensures { result.bytes.now ≡ part (code_of self.now.book.now) self.now.rule.now.condition.from self.now.rule.now.condition.size }
    {
        CheckedCode {
            bytes: self.book.code_of(self.rule.condition),
        }
    }

    /// The action of a part.
    pub fn action(&self, part: Part) -> CheckedAction<'a>
        ensures book { result.book.now ≡ self.now.book.now }
        ensures action { result.action.now ≡ action_of self.now.rule.now part }
    {
        CheckedAction {
            book: self.book,
            action: part.action(self.rule),
        }
    }
}

impl<'a> CheckedClause<'a> {
    /// The code of the test.
    pub fn test(&self) -> CheckedCode<'a>
        ensures { result.bytes.now ≡ part (code_of self.now.book.now) self.now.clause.now.test.from self.now.clause.now.test.size }
    {
        CheckedCode {
            bytes: self.book.code_of(self.clause.test),
        }
    }
}
