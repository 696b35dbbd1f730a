//! The value of an expression.
ghost use Rattle.std.specs.Prelude.{◌≡◌, ◌≤◌, length};
ghost use Rattle.meaning.specs.Expression as meant;
ghost use Rattle.meaning.specs.Expression.{decoded, deepened, pushed};
ghost use Rattle.runs.specs.Table.{cell, value_at};
ghost use Rattle.evaluation.specs.Shown.{shown};
ghost use Rattle.book.specs.Runnable.{Runnable};

use super::operators::truth;
use super::preview::Preview;
use super::stack::{DEPTH, Stack};
use book::Instructions;
use hosts::Host;
use meaning::Instruction;

/// Evaluates code on the device `own`, for the device `receiver`, over a preview of the cells.
#[derive_where(Clone, Copy)]
pub struct Evaluator<'a, H> {
    pub preview: Preview<'a, H>,
    pub own: u32,
    pub receiver: u32,
}

impl<H: Host> Evaluator<'_, H> {
    /// One instruction on a stack.
    fn step(&self, stack: &mut Stack, instruction: Instruction)
        requires { deepened (length stack.old) instruction ≤ DEPTH }
        ensures { stack.new ≡ pushed (cell (shown H.Host.table self.now.preview) self.now.own) (cell (shown H.Host.table self.now.preview) self.now.receiver) stack.old instruction }
    {
        match instruction {
            Instruction::Constant(value) => stack.push(value),
            Instruction::Own(resource) => stack.push(self.preview.amount(self.own, resource)),
            Instruction::Receiver(resource) => {
                stack.push(self.preview.amount(self.receiver, resource))
            }
            Instruction::Apply(operator) => stack.apply(operator),
        }
    }

    /// The value of some code.
    pub fn value(&self, code: &[u8]) -> i32
        requires { Runnable code.now }
        ensures { result ≡ value_at (shown H.Host.table self.now.preview) self.now.own self.now.receiver (decoded code.now) }
    {
        let mut stack = Stack::new();
        for instruction in Instructions::of(code) {
            self.step(&mut stack, instruction);
        }
        stack.below_top(0)
    }

    /// Whether the value of some code is true.
    pub fn holds(&self, code: &[u8]) -> bool
        requires { Runnable code.now }
        ensures { result ≡ meant.truth (value_at (shown H.Host.table self.now.preview) self.now.own self.now.receiver (decoded code.now)) }
    {
        truth(self.value(code))
    }
}
