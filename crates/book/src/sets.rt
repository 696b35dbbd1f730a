//! Sets of resources, and the cells that code reads.
ghost use Rattle.std.specs.Prelude.{◌≡◌, ◌<◌, true};
ghost use Rattle.meaning.specs.Expression.{decoded};
ghost use Rattle.meaning.specs.Sets.{with_member};
ghost use Rattle.book.specs.Sides.{read_of, reads_of, small, Small};

use super::instructions::Instructions;
use super::sides::Side;
use meaning::Instruction;

/// A resource, beside the members of `set`.
pub fn with_member(set: u32, member: u8) -> u32
    requires { member < 32 }
    ensures { result ≡ with_member set member }
{
    set | 1 << member
}

/// The cell of one side that an instruction reads, beside the members of `set`.
fn with_read(set: u32, instruction: Instruction, side: Side) -> u32
    requires { small instruction ≡ true }
    ensures { result ≡ read_of side set instruction }
{
    match (instruction, side) {
        (Instruction::Own(resource), Side::Own) => with_member(set, resource),
        (Instruction::Receiver(resource), Side::Receiver) => with_member(set, resource),
        _ => set,
    }
}

/// The cells of one side that some code reads, beside the members of `set`.
pub fn reads(set: u32, code: &[u8], side: Side) -> u32
    requires { Small code.now }
    ensures { result ≡ reads_of side set (decoded code.now) }
{
    let mut set = set;
    for instruction in Instructions::of(code) {
        set = with_read(set, instruction, side);
    }
    set
}
