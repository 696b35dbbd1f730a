//! Whether each device has the cells that its rules need and its clauses read.
ghost use Rattle.std.specs.Prelude.{◌≡◌, ◌<◌, All};
ghost use Rattle.meaning.specs.Book as meant;
ghost use Rattle.meaning.specs.Checks.{through};
ghost use Rattle.meaning.specs.Reading.{carrier_checked, rule_cells_checked, clause_cells_checked, cells_checked};
ghost use Rattle.book.specs.Means.{slot_means, action_means, rule_means};
ghost use Rattle.book.specs.Plan.{plan, code_in};
ghost use Rattle.book.specs.Small.{SmallSlot, SmallRule, with_slot};

use super::bytes::four;
use super::file::{File, Parsed};
use super::refusal::refusal;
use super::rule::{Action, Clause, Kind, Rule, Slot};
use super::sets::{reads, with_member};
use super::sides::Side;
use super::spelling::spelt_at;
use fault::{BookCause, FIRST_CLAUSE, Fault};
use meaning::through;

impl File<'_> {
    /// What a slot reads, and its target where that is wanted, beside the members of `set`.
    fn with_slot(&self, target: bool, set: u32, slot: &Slot) -> u32
        requires { SmallSlot (slot_means (code_in self.now.bytes.now self.now.layout) slot.now) }
        ensures { result ≡ with_slot target set (slot_means (code_in self.now.bytes.now self.now.layout) slot.now) }
    {
        let set = if target {
            with_member(set, slot.target)
        } else {
            set
        };
        reads(set, self.code(slot.value), Side::Own)
    }

    /// What the used slots of an action read, and their targets where they are wanted, beside the members of `set`.
    // A flag, as the definition has one: with a closure in its place each call would say what it adds.
    fn gathered(&self, targets: bool, set: u32, action: &Action) -> u32
        requires { All SmallSlot (action_means (code_in self.now.bytes.now self.now.layout) action.now) }
        ensures { result ≡ meant.gathered targets set (action_means (code_in self.now.bytes.now self.now.layout) action.now) }
    {
        let mut set = set;
        for slot in action.used() {
            set = self.with_slot(targets, set, slot);
        }
        set
    }

    /// The cells that each carrier of a rule must have.
    fn needs(&self, rule: &Rule) -> u32
        requires { SmallRule (rule_means (code_in self.now.bytes.now self.now.layout) rule.now) }
        ensures { result ≡ meant.needs (rule_means (code_in self.now.bytes.now self.now.layout) rule.now) }
    {
        let set = reads(rule.events, self.code(rule.condition), Side::Own);
        let set = self.gathered(true, set, &rule.defaults);
        self.gathered(rule.kind == Kind::Local, set, &rule.tasks)
    }

    /// Device `d`, if it carries the rule `i`, has the cells that the rule needs.
    fn carrier(&self, i: usize, carriers: u16, needed: u32, d: usize) -> Result<(), Fault>
        requires rule { i < 32 }
        requires device { d < self.now.layout.devices }
        ensures { result ≡ carrier_checked self.now.bytes.now (plan self.now.layout) i carriers needed d tt }
    {
        let cells = four(self.bytes, self.layout.mask_from(d));
        if (carriers >> d) % 2 == 1 && needed & cells != needed {
            return Err(refusal(BookCause::Cell, i, d));
        }
        Ok(())
    }
}

impl Parsed<'_> {
    /// Each carrier of the rule `i` has the cells that the rule needs.
    #[tactic(auto, unfolding(meaning::specs::Reading::rule_cells_checked))]
    fn rule(&self, i: usize) -> Result<(), Fault>
        requires { i < self.now.file.layout.rules }
        ensures { result ≡ rule_cells_checked self.now.file.bytes.now (plan self.now.file.layout) i tt }
    {
        let file = &self.file;
        let rule: Rule = spelt_at(file.bytes, file.layout.rule_from(i));
        let needed = file.needs(&rule);
        through(
            file.layout.devices,
            (),
            |d, ()| file.carrier(i, rule.carriers, needed, d),
        )
    }

    /// The device of the clause `i` has the cells that the clause reads.
    #[tactic(auto, unfolding(meaning::specs::Reading::clause_cells_checked))]
    fn clause(&self, i: usize) -> Result<(), Fault>
        requires { i < self.now.file.layout.clauses }
        ensures { result ≡ clause_cells_checked self.now.file.bytes.now (plan self.now.file.layout) i tt }
    {
        let file = &self.file;
        let clause: Clause = spelt_at(file.bytes, file.layout.clause_from(i));
        let device = usize::from(clause.device);
        let needed = reads(0, file.code(clause.test), Side::Own);
        let cells = four(file.bytes, file.layout.mask_from(device));
        if needed & cells != needed {
            return Err(refusal(BookCause::Cell, usize::from(FIRST_CLAUSE) + i, device));
        }
        Ok(())
    }

    /// The cells that rules need.
    #[tactic(auto, unfolding(meaning::specs::Reading::rule_cells_checked))]
    fn rules(&self) -> Result<(), Fault>
        ensures { result ≡ through (rule_cells_checked self.now.file.bytes.now (plan self.now.file.layout)) self.now.file.layout.rules 0 tt }
    {
        through(self.file.layout.rules, (), |i, ()| self.rule(i))
    }

    /// The cells that clauses read.
    #[tactic(auto, unfolding(meaning::specs::Reading::clause_cells_checked))]
    fn clauses(&self) -> Result<(), Fault>
        ensures { result ≡ through (clause_cells_checked self.now.file.bytes.now (plan self.now.file.layout)) self.now.file.layout.clauses 0 tt }
    {
        through(self.file.layout.clauses, (), |i, ()| self.clause(i))
    }

    /// The cells that rules need, then those that clauses read.
    #[tactic(auto, unfolding(meaning::specs::Reading::cells_checked))]
    pub fn cells(&self) -> Result<(), Fault>
        ensures { result ≡ cells_checked self.now.file.bytes.now (plan self.now.file.layout) }
    {
        self.rules()?;
        self.clauses()
    }
}
