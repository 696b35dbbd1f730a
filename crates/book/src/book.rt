//! A book in fixed memory: tables with room for the largest one, and how much of each is used.
use super::rule::{Clause, Rule};

/// The most devices of a book.
pub const DEVICES: usize = 16;
/// The most resources of a book.
pub const RESOURCES: usize = 32;
/// The most cells of a book: each device has each resource.
pub const CELLS: usize = 512;
/// The most rules of a book.
pub const RULES: usize = 32;
/// The most clauses of a book.
pub const CLAUSES: usize = 32;
/// The most bytes of code: 64 for each of 9 expressions of a rule, and 64 for a clause.
pub const CODE: usize = 20480;

/// A book. Of each table the first entries are used: as many as its count says.
// Fixed memory: each table beside its count, since a generic struct can hold no array of a type parameter.
#[derive(PartialEq, Eq, Drop)]
pub struct Book {
    pub device_count: usize,
    pub resource_count: usize,
    pub cell_count: usize,
    pub rule_count: usize,
    pub clause_count: usize,
    pub code_size: usize,
    pub levels: [u8; RESOURCES],
    pub cells: [u32; DEVICES],
    pub starts: [i32; CELLS],
    pub rules: [Rule; RULES],
    pub clauses: [Clause; CLAUSES],
    pub code: [u8; CODE],
}
