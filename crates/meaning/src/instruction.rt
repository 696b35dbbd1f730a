//! The instructions of postfix code, the words of every definition and of the code alike.

/// What an instruction computes from the operands that it pops.
#[derive(Clone, Copy, PartialEq, Eq, Debug)]
pub enum Operator {
    Add,
    Subtract,
    Multiply,
    Divide,
    Less,
    AtMost,
    Equal,
    Unequal,
    And,
    Or,
    Not,
    Absolute,
}

/// One instruction. Each pushes one result.
#[derive(Clone, Copy, PartialEq, Eq, Debug)]
pub enum Instruction {
    Constant(i32),
    Own(u8),
    Receiver(u8),
    Apply(Operator),
}
