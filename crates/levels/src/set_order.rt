//! Sets: levels are the sets of up to four members, compared by inclusion.
ghost use Rattle.std.specs.Prelude.{◌≤◌};

/// The sets of 0 to 4 members: level numbers are masks of members.
#[derive(Clone, Copy)]
pub struct SetOrder {
    pub(crate) members: u32,
    ghost few: { members ≤ 4 },
}
