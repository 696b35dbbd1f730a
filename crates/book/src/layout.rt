//! Where the sections of a file lie, once its header is right.
ghost use Rattle.std.specs.Prelude.{◌≤◌};

/// The counts of a book file, and how many bytes of code it has.
#[derive(Clone, Copy)]
pub struct Layout {
    pub devices: usize,
    pub resources: usize,
    pub rules: usize,
    pub clauses: usize,
    pub cells: usize,
    pub room: u16,
    ghost few_devices: { devices ≤ 16 },
    ghost few_resources: { resources ≤ 32 },
    ghost few_rules: { rules ≤ 32 },
    ghost few_clauses: { clauses ≤ 32 },
    ghost few_cells: { cells ≤ 512 },
}
