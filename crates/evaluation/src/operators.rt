//! What the operators of postfix code give of their operands.
ghost use Rattle.std.specs.Prelude.{◌≡◌, ◌<◌};
ghost use Rattle.meaning.specs.Expression as meant;
ghost use Rattle.meaning.specs.Expression.{operated, pops};
ghost use Rattle.meaning.specs.declared.instruction.Instruction.TheVariants.{Apply};

use book::row_of;
use meaning::{Instruction, Operator};

/// Each number but 0 counts as true.
pub fn truth(value: i32) -> bool
    ensures { result ≡ meant.truth value }
{
    value != 0
}

/// How many operands an operator takes.
pub(crate) fn operands(operator: Operator) -> usize
    ensures table { result ≡ pops (Apply operator) }
    ensures some { 0 < result }
{
    usize::from(row_of(Instruction::Apply(operator)).pops)
}

/// What an operator gives of its operands; `a` was pushed first, and of one operand `b` is it.
#[tactic(auto, unfolding(meaning::specs::Expression::operated))]
pub fn operate(operator: Operator, a: i32, b: i32) -> i32
    ensures { result ≡ operated operator a b }
{
    match operator {
        Operator::Add => a.saturating_add(b),
        Operator::Subtract => a.saturating_sub(b),
        Operator::Multiply => a.saturating_mul(b),
        Operator::Divide if b == 0 => 0,
        Operator::Divide => a.saturating_div(b),
        Operator::Less => i32::from(a < b),
        Operator::AtMost => i32::from(a <= b),
        Operator::Equal => i32::from(a == b),
        Operator::Unequal => i32::from(a != b),
        Operator::And => i32::from(truth(a) && truth(b)),
        Operator::Or => i32::from(truth(a) || truth(b)),
        Operator::Not => i32::from(!truth(b)),
        Operator::Absolute => b.saturating_abs(),
    }
}
