//! The instructions of code, one after the other.
ghost use Rattle.std.specs.Prelude.{◌≡◌};
ghost use Rattle.std.specs.Iterator.{YieldsFirst, item_count};
ghost use Rattle.meaning.specs.Expression.{decoded};

use super::opcode::front;
use meaning::Instruction;

/// The instructions of some code that are still to come, up to where it ends or breaks off.
#[derive(Clone, Copy)]
pub struct Instructions<'a> {
    code: &'a [u8],
}

impl<'a> Instructions<'a> {
    /// The instructions of some code, from its front on.
    pub fn of(code: &'a [u8]) -> Instructions<'a>
        ensures { result.code.now ≡ code.now }
    {
        Instructions { code }
    }
}

impl<'a> Iterator for Instructions<'a> {
    type Item = Instruction;

    ghost next_gives = { YieldsFirst (λ walk. decoded walk.code.now) };

    ghost remaining = { item_count (λ walk. decoded walk.code.now) };

    #[tactic(auto, using(crate::proofs::Walk::spells_first, crate::proofs::Walk::spells_nothing))]
    fn next(&mut self) -> Option<Instruction> {
        let (instruction, rest) = front(self.code)?;
        self.code = rest;
        Some(instruction)
    }
}
