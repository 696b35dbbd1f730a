//! A value for a cell, the word of every definition and of the code alike.

/// A target, and the value that it is to have.
#[derive(Clone, Copy)]
pub struct Write {
    pub target: u8,
    pub value: i32,
}
