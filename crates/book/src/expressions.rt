//! Whether the expressions of a book are right, in code order.
ghost use Rattle.std.specs.Prelude.{◌≡◌, ◌+◌, ◌*◌, ◌^◌, ◌<◌, ◌≤◌, false, length, IfSome};
ghost use Rattle.meaning.specs.Checks.{through};
ghost use Rattle.meaning.specs.Expression.{named, wrong};
ghost use Rattle.meaning.specs.Layout.{rules_from, clauses_from};
ghost use Rattle.meaning.specs.Reading.{expression_checked, values_checked, rule_expressions_checked, expressions_checked};
ghost use Rattle.book.specs.Plan.{plan};
ghost use Rattle.book.specs.Scopes.{scoped};

use super::bytes::byte;
use super::file::File;
use super::opcode::{front, row_of};
use super::refusal::refusal;
use super::rule::Span;
use super::scope::Scope;
use super::spelling::spelt_at;
use fault::{BookCause, Fault};
use meaning::{Instruction, through};

/// The greatest depth of the stack.
const DEPTH: u8 = 8;
/// The most bytes of an expression.
const LONGEST: u16 = 64;

impl Scope {
    /// What an instruction names is there.
    fn names(&self, instruction: Instruction) -> bool
        ensures { result ≡ named (scoped self.now) instruction }
    {
        match instruction {
            Instruction::Constant(_) | Instruction::Apply(_) => true,
            Instruction::Own(r) => usize::from(r) < self.resources,
            Instruction::Receiver(r) => usize::from(r) < self.resources && self.receiver,
        }
    }
}

/// Where some code is wrong: the offset of the first instruction that may not stand, or the end if the depth is not 1 there.
// The depth is not a value with a method: as one it takes half as many instructions again.
fn first_wrong(code: &[u8], scope: Scope) -> Option<usize>
    ensures value { result ≡ wrong (scoped scope) code.now }
    ensures bound { IfSome result (λ k. k ≤ length code.now) }
{
    let mut rest = code;
    let mut at = 0;
    let mut depth = 0;
    while let Some((instruction, tail)) = front(rest) {
        let row = row_of(instruction);
        if !scope.names(instruction) || depth < row.pops || depth + 1 - row.pops > DEPTH {
            return Some(at);
        }
        depth = depth + 1 - row.pops;
        at += usize::from(row.length);
        rest = tail;
    }
    if rest.is_empty() && depth == 1 {
        None
    } else {
        Some(at)
    }
}

impl File<'_> {
    /// The expression that the pair at `at` names has 1 to 64 bytes, and each of its instructions may stand.
    #[tactic(auto, unfolding(meaning::specs::Reading::expression_checked))]
    fn expression(&self, receiver: bool, at: usize) -> Result<(), Fault>
        ensures { result ≡ expression_checked self.now.bytes.now (plan self.now.layout) receiver at }
    {
        let span: Span = spelt_at(self.bytes, at);
        let from = self.layout.code_from() + usize::from(span.from);
        if span.size < 1 || span.size > LONGEST {
            return Err(refusal(BookCause::Expression, from, 0));
        }
        let scope = Scope {
            resources: self.layout.resources,
            receiver,
        };
        match first_wrong(self.code(span), scope) {
            Some(inside) => Err(refusal(BookCause::Expression, from, inside)),
            None => Ok(()),
        }
    }

    /// The expressions of the used slots of the action at `at`.
    fn values(&self, receiver: bool, at: usize, count: u8) -> Result<(), Fault>
        requires { at < 2 ^ 15 }
        ensures { result ≡ values_checked self.now.bytes.now (plan self.now.layout) receiver at count }
    {
        through(
            usize::from(count),
            (),
            |k, ()| self.expression(receiver, at + 5 * k + 1),
        )
    }

    /// The expressions of the rule `i`.
    #[tactic(auto, unfolding(meaning::specs::Reading::rule_expressions_checked))]
    fn rule_expressions(&self, i: usize) -> Result<(), Fault>
        requires { i < self.now.layout.rules }
        ensures { result ≡ rule_expressions_checked self.now.bytes.now (plan self.now.layout) (rules_from (plan self.now.layout) + 53 * i) }
    {
        let at = self.layout.rule_from(i);
        let remote = byte(self.bytes, at + 6) == 1;
        self.expression(remote, at + 9)?;
        self.values(false, at + 13, byte(self.bytes, at + 7))?;
        self.values(remote, at + 33, byte(self.bytes, at + 8))
    }

    /// The expression of the clause `i`.
    fn clause_expression(&self, i: usize) -> Result<(), Fault>
        requires { i < self.now.layout.clauses }
        ensures { result ≡ expression_checked self.now.bytes.now (plan self.now.layout) false (clauses_from (plan self.now.layout) + 5 * i + 1) }
    {
        self.expression(false, self.layout.clause_from(i) + 1)
    }

    /// The expressions of all rules.
    fn expressions_of_rules(&self) -> Result<(), Fault>
        ensures { result ≡ through (λ i _. rule_expressions_checked self.now.bytes.now (plan self.now.layout) (rules_from (plan self.now.layout) + 53 * i)) self.now.layout.rules 0 tt }
    {
        through(self.layout.rules, (), |i, ()| self.rule_expressions(i))
    }

    /// The expressions of all clauses.
    fn expressions_of_clauses(&self) -> Result<(), Fault>
        ensures { result ≡ through (λ i _. expression_checked self.now.bytes.now (plan self.now.layout) false (clauses_from (plan self.now.layout) + 5 * i + 1)) self.now.layout.clauses 0 tt }
    {
        through(self.layout.clauses, (), |i, ()| self.clause_expression(i))
    }

    /// Every expression of the book.
    #[tactic(auto, unfolding(meaning::specs::Reading::expressions_checked))]
    pub fn expressions(&self) -> Result<(), Fault>
        ensures { result ≡ expressions_checked self.now.bytes.now (plan self.now.layout) }
    {
        self.expressions_of_rules()?;
        self.expressions_of_clauses()
    }
}
