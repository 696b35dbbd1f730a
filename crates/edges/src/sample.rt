//! A sample book of three devices and four resources, whose bytes the changes name.
//!
//! Its file has 248 bytes: levels from 32, cells from 36, starts from 48, rules at 84 and 137, clauses at 190 and 195,
//! and code from 200, with expressions at 200, 208, 216, 218, 223, 228, 230, 235 and 240.
use super::builder::{Builder, Clause, Rule, Slot};
use super::code::code;
use book::Kind;
use meaning::Instruction::{Apply, Constant, Own, Receiver};
use meaning::{Instruction, Operator};
use std::alloc::{AllocError, Global};

fn slot(heap: Global, target: u8, instructions: &[Instruction]) -> Result<Slot, AllocError> {
    let value = code(heap, instructions)?;
    Ok(Slot { target, value })
}

/// A local rule of devices 0 and 1, which have all its cells, and which have resource 2 in common but not resource 3.
fn local_rule(heap: Global) -> Result<Rule, AllocError> {
    let condition = [Own(0), Constant(100), Apply(Operator::Less)];
    let default = [Own(0), Constant(1), Apply(Operator::Add)];
    Ok(Rule {
        carriers: 0b011,
        events: 0b0001,
        kind: Kind::Local,
        condition: code(heap, &condition)?,
        defaults: vec![in heap; slot(heap, 1, &default)?]?,
        tasks: vec![in heap; slot(heap, 2, &[Own(1)])?]?,
    })
}

/// A remote rule of devices 0 and 1. Its task sets resource 3, which device 1 itself lacks.
fn remote_rule(heap: Global) -> Result<Rule, AllocError> {
    let condition = [Own(1), Receiver(1), Apply(Operator::Less)];
    let task = [Receiver(3), Own(0), Apply(Operator::Add)];
    let first = slot(heap, 0, &[Constant(0)])?;
    let second = slot(heap, 1, &[Own(2)])?;
    Ok(Rule {
        carriers: 0b011,
        events: 0b0110,
        kind: Kind::Remote,
        condition: code(heap, &condition)?,
        defaults: vec![in heap; first, second]?,
        tasks: vec![in heap; slot(heap, 3, &task)?]?,
    })
}

fn clause(heap: Global, device: u8, instructions: &[Instruction]) -> Result<Clause, AllocError> {
    let test = code(heap, instructions)?;
    Ok(Clause { device, test })
}

/// The book: device 0 has all resources, device 1 the first three, device 2 the first two.
pub fn sample(heap: Global) -> Result<Builder, AllocError> {
    let local = local_rule(heap)?;
    let remote = remote_rule(heap)?;
    let low = [Own(0), Own(1), Apply(Operator::AtMost)];
    let high = [Own(3), Constant(50), Apply(Operator::Less)];
    let on_two = clause(heap, 2, &low)?;
    let on_zero = clause(heap, 0, &high)?;
    Ok(Builder {
        levels: vec![in heap; 0, 1, 2, 3]?,
        masks: vec![in heap; 0b1111, 0b0111, 0b0011]?,
        starts: vec![in heap; 1, -2, 3, 40, 5, 6, -7, 8, 9]?,
        rules: vec![in heap; local, remote]?,
        clauses: vec![in heap; on_two, on_zero]?,
    })
}
