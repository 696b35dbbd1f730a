//! A ladder: levels compared as numbers.
ghost use Rattle.std.specs.Prelude.{◌≤◌};

/// A ladder of 1 to 16 levels.
#[derive(Clone, Copy)]
pub struct Ladder {
    pub(crate) levels: u32,
    ghost some: { 1 ≤ levels },
    ghost few: { levels ≤ 16 },
}
