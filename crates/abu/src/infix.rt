//! Postfix code as infix text.
use book::Instructions;
use meaning::{Instruction, Operator};
use std::alloc::{AllocError, Global};

/// How an operator is written.
#[derive(Clone, Copy)]
enum Sign {
    Between(&'static str),
    Before(&'static str),
}

impl From<Operator> for Sign {
    fn from(operator: Operator) -> Sign {
        match operator {
            Operator::Add => Sign::Between("+"),
            Operator::Subtract => Sign::Between("-"),
            Operator::Multiply => Sign::Between("*"),
            Operator::Divide => Sign::Between("/"),
            Operator::Less => Sign::Between("<"),
            Operator::AtMost => Sign::Between("<="),
            Operator::Equal => Sign::Between("="),
            Operator::Unequal => Sign::Between("!="),
            Operator::And => Sign::Between("and"),
            Operator::Or => Sign::Between("or"),
            Operator::Not => Sign::Before("not"),
            Operator::Absolute => Sign::Before("abs"),
        }
    }
}

/// The texts of the operands that no operator has taken yet, the last one on top.
#[derive(Drop)]
struct Operands {
    heap: Global,
    texts: Vec<String>,
}

impl Operands {
    /// The text of the last operand. Checked code never lacks one; `?` would stand for it.
    fn pop(&mut self) -> Result<String, AllocError> {
        match self.texts.pop() {
            Some(text) => Ok(text),
            None => String::from_str(self.heap, "?"),
        }
    }

    /// The text of an operator over the last operands, in parentheses.
    fn applied(&mut self, operator: Operator) -> Result<String, AllocError> {
        let last = self.pop()?;
        match Sign::from(operator) {
            Sign::Before(word) => format!(in self.heap; "({word} {last})"),
            Sign::Between(word) => {
                let first = self.pop()?;
                format!(in self.heap; "({first} {word} {last})")
            }
        }
    }

    /// Pushes the text of an instruction, over the operands that it pops.
    fn push(&mut self, instruction: Instruction) -> Result<(), AllocError> {
        let text = match instruction {
            Instruction::Constant(value) => format!(in self.heap; "{value}")?,
            Instruction::Own(resource) => format!(in self.heap; "r{resource}")?,
            Instruction::Receiver(resource) => format!(in self.heap; "there.r{resource}")?,
            Instruction::Apply(operator) => self.applied(operator)?,
        };
        self.texts.push(text)?;
        Ok(())
    }
}

/// The infix text of an expression, with parentheses around each operator: `r0` is an own cell, `there.r0` the
/// receiver's.
pub fn infix(heap: Global, code: &[u8]) -> Result<String, AllocError> {
    let mut operands = Operands {
        heap,
        texts: Vec::new(heap),
    };
    for instruction in Instructions::of(code) {
        operands.push(instruction)?;
    }
    operands.pop()
}
