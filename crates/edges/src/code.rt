//! The postfix code of expressions.
use meaning::{Instruction, Operator};
use std::alloc::{AllocError, Global};
use std::iter::repeat_n;

fn opcode(operator: Operator) -> u8 {
    match operator {
        Operator::Add => 3,
        Operator::Subtract => 4,
        Operator::Multiply => 5,
        Operator::Divide => 6,
        Operator::Less => 7,
        Operator::AtMost => 8,
        Operator::Equal => 9,
        Operator::Unequal => 10,
        Operator::And => 11,
        Operator::Or => 12,
        Operator::Not => 13,
        Operator::Absolute => 14,
    }
}

fn put(code: &mut Vec<u8>, instruction: Instruction) -> Result<(), AllocError> {
    match instruction {
        Instruction::Constant(value) => {
            code.push(0)?;
            code.extend_from_slice(&value.to_be_bytes())
        }
        Instruction::Own(resource) => code.extend_from_slice(&[1, resource]),
        Instruction::Receiver(resource) => code.extend_from_slice(&[2, resource]),
        Instruction::Apply(operator) => code.extend_from_slice(&[opcode(operator)]),
    }
}

/// The bytes of some instructions.
pub fn code(heap: Global, instructions: &[Instruction]) -> Result<Vec<u8>, AllocError> {
    let mut code = Vec::new(heap);
    for instruction in instructions {
        put(&mut code, *instruction)?;
    }
    Ok(code)
}

/// The bytes of so many reads of resource 0, and then of an operator so many times.
pub fn reads_then(
    heap: Global,
    reads: usize,
    operator: Operator,
    times: usize,
) -> Result<Vec<u8>, AllocError> {
    let instructions: Vec<Instruction> = repeat_n(Instruction::Own(0), reads)
        .chain(repeat_n(Instruction::Apply(operator), times))
        .collect(heap)?;
    code(heap, &instructions)
}

/// An expression of 64 bytes: a read and 62 operators.
pub fn longest(heap: Global) -> Result<Vec<u8>, AllocError> {
    reads_then(heap, 1, Operator::Not, 62)
}
