//! Where an expression stands.

/// How many resources the book has, and whether the expression may read the receiver's cells.
#[derive(Clone, Copy)]
pub struct Scope {
    pub resources: usize,
    pub receiver: bool,
}
