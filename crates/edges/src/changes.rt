//! Changes of one byte of the sample's file, each with the refusal that it leads to.
use super::answer::Answer;
use fault::BookCause;
use fault::BookCause::{Cell, Count, Expression, Field, Frame};
use std::alloc::{AllocError, Global};

/// A change: its name, the byte of the file that it is made at, what it puts there, and the cause and the place of the
/// refusal.
#[derive(Clone, Copy)]
pub struct Change(&'static str, usize, u8, BookCause, u32, u32);

impl Change {
    /// What is wrong with the changed file.
    pub fn name(&self) -> &'static str {
        self.0
    }

    /// The byte of the file that the change is made at.
    pub fn at(&self) -> usize {
        self.1
    }

    /// The answer to the changed file.
    pub fn answer(&self) -> Answer {
        let Change(.., cause, a, b) = *self;
        Answer::refused(cause, a, b)
    }

    /// A file with the change.
    pub fn of(&self, heap: Global, file: &[u8]) -> Result<Vec<u8>, AllocError> {
        let Change(_, at, byte, ..) = *self;
        let mut changed = Vec::from_slice(heap, file)?;
        if let Some(old) = changed.get_mut(at) {
            *old = byte;
        }
        Ok(changed)
    }
}

/// The changes, in the order in which reading tests for what they break. So of two of them the first gives the answer.
pub const CHANGES: [Change; 87] = [
    Change("first byte", 0, b'a', Frame, 0, 0),
    Change("fourth byte", 3, b'2', Frame, 0, 0),
    Change("no devices", 4, 0, Count, 4, 0),
    Change("17 devices", 4, 17, Count, 4, 0),
    Change("no resources", 5, 0, Count, 5, 0),
    Change("33 resources", 5, 33, Count, 5, 0),
    Change("33 rules", 6, 33, Count, 6, 0),
    Change("33 clauses", 7, 33, Count, 7, 0),
    Change("levels, high offset", 8, 1, Frame, 8, 0),
    Change("levels, offset", 9, 31, Frame, 8, 0),
    Change("levels, length", 11, 3, Frame, 8, 0),
    Change("a resource more", 5, 5, Frame, 8, 0),
    Change("cells, offset", 13, 37, Frame, 12, 0),
    Change("cells, length", 15, 16, Frame, 12, 0),
    Change("a device less", 4, 2, Frame, 12, 0),
    Change("starts, offset", 17, 47, Frame, 16, 0),
    Change("starts, length", 19, 40, Frame, 16, 0),
    Change("a cell less", 39, 0b0111, Frame, 16, 0),
    Change("rules, offset", 21, 85, Frame, 20, 0),
    Change("rules, length", 23, 105, Frame, 20, 0),
    Change("a rule less", 6, 1, Frame, 20, 0),
    Change("clauses, offset", 25, 189, Frame, 24, 0),
    Change("clauses, length", 27, 5, Frame, 24, 0),
    Change("a clause more", 7, 3, Frame, 24, 0),
    Change("code, offset", 29, 201, Frame, 28, 0),
    Change("code, less", 31, 47, Frame, 28, 0),
    Change("code, more", 31, 49, Frame, 28, 0),
    Change("first mask, resource 4", 39, 0b10111, Field, 36, 0),
    Change("second mask, resource 7", 43, 0b10000011, Field, 40, 0),
    Change("no carriers", 85, 0, Field, 84, 0),
    Change("carrier 3", 85, 0b1011, Field, 84, 0),
    Change("carrier 15", 84, 0x80, Field, 84, 0),
    Change("no events", 89, 0, Field, 86, 0),
    Change("event 4", 89, 0b10001, Field, 86, 0),
    Change("event 31", 86, 0x80, Field, 86, 0),
    Change("kind 2", 90, 2, Field, 90, 0),
    Change("five defaults", 91, 5, Field, 91, 0),
    Change("five tasks", 92, 5, Field, 92, 0),
    Change("gap before the condition", 94, 1, Field, 93, 0),
    Change("condition past the code", 96, 49, Field, 93, 0),
    Change("default's target 4", 97, 4, Field, 97, 0),
    Change("gap before the default", 99, 9, Field, 98, 0),
    Change("default over the condition", 99, 7, Field, 98, 0),
    Change("unused default's target", 102, 2, Field, 102, 0),
    Change("unused default's offset", 103, 1, Field, 103, 0),
    Change("unused default's length", 106, 1, Field, 103, 0),
    Change("last default's length", 116, 1, Field, 113, 0),
    Change("task's target 4", 117, 4, Field, 117, 0),
    Change("gap before the task", 119, 17, Field, 118, 0),
    Change("unused task's target", 122, 3, Field, 122, 0),
    Change("unused task's offset", 124, 18, Field, 123, 0),
    Change("last task's length", 136, 2, Field, 133, 0),
    Change("second rule, no carriers", 138, 0, Field, 137, 0),
    Change("repeated target", 155, 0, Field, 155, 0),
    Change("clause of device 3", 190, 3, Field, 190, 0),
    Change("gap before a clause", 192, 36, Field, 191, 0),
    Change("clause past the code", 199, 9, Field, 196, 0),
    Change("code left over", 199, 7, Field, 247, 0),
    Change("unknown opcode", 200, 15, Expression, 200, 0),
    Change("receiver in a local condition", 200, 2, Expression, 200, 0),
    Change("own resource 4", 201, 4, Expression, 200, 0),
    Change("no operand", 202, 3, Expression, 200, 2),
    Change("unknown last opcode", 207, 255, Expression, 200, 7),
    Change("condition, two values left", 207, 14, Expression, 200, 8),
    Change("receiver in a local default", 208, 2, Expression, 208, 0),
    Change("receiver in a local task", 216, 2, Expression, 216, 0),
    Change("constant without its bytes", 216, 0, Expression, 216, 0),
    Change("second rule local", 143, 0, Expression, 218, 2),
    Change("receiver's resource 4", 221, 4, Expression, 218, 2),
    Change("receiver in a remote default", 228, 2, Expression, 228, 0),
    Change("receiver in a clause", 235, 2, Expression, 235, 0),
    Change("one operand of two", 237, 12, Expression, 235, 2),
    Change("clause, two values left", 239, 13, Expression, 235, 5),
    Change("read without its byte", 247, 1, Expression, 240, 7),
    Change("missing event", 89, 0b1001, Cell, 0, 1),
    Change("missing read of a condition", 201, 3, Cell, 0, 1),
    Change("missing default target", 97, 3, Cell, 0, 1),
    Change("missing read of a default", 209, 3, Cell, 0, 1),
    Change("missing local target", 117, 3, Cell, 0, 1),
    Change("missing read of a task", 217, 3, Cell, 0, 1),
    Change("carrier 2 of the local rule", 85, 0b111, Cell, 0, 2),
    Change("missing remote event", 142, 0b1110, Cell, 1, 1),
    Change("missing remote default target", 155, 3, Cell, 1, 1),
    Change("missing read of a remote task", 233, 3, Cell, 1, 1),
    Change("carrier 2 of the remote rule", 138, 0b111, Cell, 1, 2),
    Change("missing read of a clause", 238, 2, Cell, 32, 2),
    Change("clause on another device", 195, 1, Cell, 33, 1),
];
