//! The parts of a rule.

/// The default part of a rule, or its task part.
#[derive(Clone, Copy, PartialEq, Eq, Debug)]
pub enum Part {
    Default = 0,
    Task = 1,
}

/// A number that no part of a rule has.
#[derive(Clone, Copy, PartialEq, Eq, Debug)]
pub struct UnknownPart(pub u8);
