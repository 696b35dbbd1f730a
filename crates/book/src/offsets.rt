//! Where each section begins, and each of its records.
ghost use Rattle.std.specs.Prelude.{◌≡◌, ◌+◌, ◌*◌, ◌<◌};
ghost use Rattle.meaning.specs.Layout.{cells_from, starts_from, rules_from, clauses_from, code_from};
ghost use Rattle.book.specs.Plan.{plan};

use super::layout::Layout;

/// The bytes of a header, after which the levels begin.
pub const HEADER: usize = 32;
/// The bytes of a device's mask of cells.
pub const MASK: usize = 4;
/// The bytes of a cell's start.
pub const START: usize = 4;
/// The bytes of a rule.
pub const RULE: usize = 53;
/// The bytes of a clause.
pub const CLAUSE: usize = 5;

impl Layout {
    /// Where the masks of cells begin.
    pub fn cells_from(&self) -> usize
        ensures { result ≡ cells_from (plan self.now) }
    {
        HEADER + self.resources
    }

    /// Where the starts of the cells begin.
    pub fn starts_from(&self) -> usize
        ensures { result ≡ starts_from (plan self.now) }
    {
        self.cells_from() + MASK * self.devices
    }

    /// Where the rules begin.
    pub fn rules_from(&self) -> usize
        ensures { result ≡ rules_from (plan self.now) }
    {
        self.starts_from() + START * self.cells
    }

    /// Where the clauses begin.
    pub fn clauses_from(&self) -> usize
        ensures { result ≡ clauses_from (plan self.now) }
    {
        self.rules_from() + RULE * self.rules
    }

    /// Where the code begins, which ends the file.
    pub fn code_from(&self) -> usize
        ensures { result ≡ code_from (plan self.now) }
    {
        self.clauses_from() + CLAUSE * self.clauses
    }

    /// Where the mask of device `d` stands.
    pub fn mask_from(&self, d: usize) -> usize
        requires { d < 256 }
        ensures { result ≡ cells_from (plan self.now) + 4 * d }
    {
        self.cells_from() + MASK * d
    }

    /// Where the rule `i` stands.
    pub fn rule_from(&self, i: usize) -> usize
        requires { i < 32 }
        ensures { result ≡ rules_from (plan self.now) + 53 * i }
    {
        self.rules_from() + RULE * i
    }

    /// Where the clause `i` stands.
    pub fn clause_from(&self, i: usize) -> usize
        requires { i < 32 }
        ensures { result ≡ clauses_from (plan self.now) + 5 * i }
    {
        self.clauses_from() + CLAUSE * i
    }
}
