//! The stack that an expression is evaluated on.
ghost use Rattle.std.specs.Prelude.{◌≡◌, ℕ, ◌≤◌, ◌<◌, List, [], ◌∷◌, length, reverse, take, drop, ℤ, pos, slice_index_or};
ghost use Rattle.meaning.specs.declared.instruction.Instruction.TheVariants.{Apply};
ghost use Rattle.meaning.specs.Expression.{operated, pops};
ghost use Rattle.evaluation.specs.declared.stack.TheConstants.{DEPTH};

use super::operators::{operands, operate};
use meaning::Operator;
use std::marker::Model;

/// The most values on a stack.
pub(crate) const DEPTH: usize = 8;

/// At most eight values, the top first. They are kept with the top last, in fixed memory.
#[derive(Drop)]
pub(crate) struct Stack {
    items: [i32; DEPTH],
    depth: usize,
}

impl Model for Stack {
    ghost Value = { List ℤ };

    ghost view = { λ s. reverse (take s.depth s.items) };

    ghost invariant = { λ s. s.depth ≤ DEPTH };
}

impl Stack {
    /// A stack with no value.
    pub(crate) fn new() -> Stack
        ensures { result ≡ [] }
    {
        Stack {
            items: [0; DEPTH],
            depth: 0,
        }
    }

    /// The value that is `place` below the top, or 0 where the stack is not as deep.
    pub(crate) fn below_top(&self, place: usize) -> i32
        ensures { result ≡ slice_index_or self.now place (pos 0) }
    {
        // A chain from the last value back, with 0 for none, leaves a goal where this test leaves none.
        if place < self.depth {
            self.items[self.depth - 1 - place]
        } else {
            0
        }
    }

    /// Puts a value on top.
    pub(crate) fn push(&mut self, value: i32)
        requires { length self.old < DEPTH }
        ensures { self.new ≡ value ∷ self.old }
    {
        self.items[self.depth] = value;
        self.depth += 1;
    }

    /// Takes values off the top.
    #[tactic(auto, using(crate::proofs::Reversed::reverse_less))]
    fn pop(&mut self, count: usize)
        ensures rest { self.new ≡ drop count self.old }
        ensures few { length self.old ≤ DEPTH }
    {
        self.depth = self.depth.saturating_sub(count);
    }

    /// Takes an operator's operands off the top, and puts its result there.
    pub(crate) fn apply(&mut self, operator: Operator)
        ensures { self.new ≡ operated operator (slice_index_or self.old 1 (pos 0)) (slice_index_or self.old 0 (pos 0)) ∷ drop (pops (Apply operator)) self.old }
    {
        let result = operate(operator, self.below_top(1), self.below_top(0));
        self.pop(operands(operator));
        self.push(result);
    }
}
