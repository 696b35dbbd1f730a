//! The opcodes of postfix code, and the instruction at the front of some code.
ghost use Rattle.std.specs.Prelude.{◌≡◌, length, slice_index};
ghost use Rattle.std.specs.Option.{option_map};
ghost use Rattle.meaning.specs.Expression.{encoded_instruction, pops, operator};
ghost use Rattle.book.specs.Fronts.{seen, taken};

use meaning::{Instruction, Operator};

/// A line of the opcode table: the opcode, the bytes that its instruction takes, and the operands that it pops.
#[derive(Clone, Copy)]
pub struct Row {
    pub opcode: u8,
    pub length: u8,
    pub pops: u8,
}

/// The opcode table: a constant, the two reads, ten operators of two operands and two of one.
pub const TABLE: [Row; 15] = [
    Row {
        opcode: 0,
        length: 5,
        pops: 0,
    },
    Row {
        opcode: 1,
        length: 2,
        pops: 0,
    },
    Row {
        opcode: 2,
        length: 2,
        pops: 0,
    },
    Row {
        opcode: 3,
        length: 1,
        pops: 2,
    },
    Row {
        opcode: 4,
        length: 1,
        pops: 2,
    },
    Row {
        opcode: 5,
        length: 1,
        pops: 2,
    },
    Row {
        opcode: 6,
        length: 1,
        pops: 2,
    },
    Row {
        opcode: 7,
        length: 1,
        pops: 2,
    },
    Row {
        opcode: 8,
        length: 1,
        pops: 2,
    },
    Row {
        opcode: 9,
        length: 1,
        pops: 2,
    },
    Row {
        opcode: 10,
        length: 1,
        pops: 2,
    },
    Row {
        opcode: 11,
        length: 1,
        pops: 2,
    },
    Row {
        opcode: 12,
        length: 1,
        pops: 2,
    },
    Row {
        opcode: 13,
        length: 1,
        pops: 1,
    },
    Row {
        opcode: 14,
        length: 1,
        pops: 1,
    },
];

/// The operators, from opcode 3 on.
const OPERATORS: [Operator; 12] = [
    Operator::Add,
    Operator::Subtract,
    Operator::Multiply,
    Operator::Divide,
    Operator::Less,
    Operator::AtMost,
    Operator::Equal,
    Operator::Unequal,
    Operator::And,
    Operator::Or,
    Operator::Not,
    Operator::Absolute,
];

/// The operator of an opcode.
fn operator_of(opcode: u8) -> Option<Operator>
    ensures { result ≡ operator opcode }
{
    OPERATORS.get(usize::from(opcode).checked_sub(3)?).copied()
}

/// The opcode of an instruction.
fn opcode_of(instruction: Instruction) -> u8
    ensures { result ≡ slice_index (encoded_instruction instruction) 0 }
{
    match instruction {
        Instruction::Constant(_) => 0,
        Instruction::Own(_) => 1,
        Instruction::Receiver(_) => 2,
        Instruction::Apply(operator) => 3 + operator as u8,
    }
}

/// The line of the table for an instruction.
pub fn row_of(instruction: Instruction) -> Row
    ensures length { result.length ≡ length (encoded_instruction instruction) }
    ensures pops { result.pops ≡ pops instruction }
{
    TABLE[opcode_of(instruction) as usize]
}

/// The instruction at the front of some code, and the code after it; nothing where the first byte is no opcode or its
/// operand bytes are missing.
pub fn front(code: &[u8]) -> Option<(Instruction, &[u8])>
    ensures { option_map seen result ≡ taken code.now }
{
    match code {
        [0, a, b, c, d, rest @ ..] => Some((
            Instruction::Constant(i32::from_be_bytes([*a, *b, *c, *d])),
            rest,
        )),
        [1, r, rest @ ..] => Some((Instruction::Own(*r), rest)),
        [2, r, rest @ ..] => Some((Instruction::Receiver(*r), rest)),
        [opcode, rest @ ..] => match operator_of(*opcode) {
            Some(operator) => Some((Instruction::Apply(operator), rest)),
            None => None,
        },
        [] => None,
    }
}
