//! An order written out.
ghost use Rattle.meaning.specs.Levels.{Lawful, Meeting};
ghost use Rattle.levels.specs.Tables.{table_order, table_meets};

/// What an order says of two levels: whether the first is at or below the second, and their meet.
#[derive(Clone, Copy)]
pub(crate) struct Pair {
    pub(crate) below: bool,
    pub(crate) meet: u8,
}

/// A plain table of an order: its count, and what it says of the levels a and b at 16 × a + b. The order is lawful, and its meets are
/// greatest lower bounds.
#[derive(Clone, Copy)]
pub struct Scale {
    pub(crate) count: u32,
    pub(crate) pairs: [Pair; 256],
    ghost lawful: { Lawful (table_order count pairs) },
    ghost meeting: { Meeting (table_order count pairs) (table_meets count pairs) },
}
