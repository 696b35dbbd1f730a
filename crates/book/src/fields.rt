//! The fields of the sections, in file order, and that their pairs fill the code.
ghost use Rattle.std.specs.Prelude.{◌≡◌, ◌+◌, ◌*◌, ◌^◌, ◌<◌, ◌≤◌, Ok};
ghost use Rattle.meaning.specs.Checks.{book_fault, require, through};
ghost use Rattle.meaning.specs.Layout.{rules_from, clauses_from};
ghost use Rattle.meaning.specs.Sets.{some_under};
ghost use Rattle.meaning.specs.Reading.{mask_checked, pair_checked, repeated, slot_checked, action_checked, head_checked, rule_checked, clause_checked, fields_checked};
ghost use Rattle.fault.specs.declared.fault.BookCause.TheVariants.{Field};
ghost use Rattle.book.specs.Plan.{plan};

use super::bytes::{byte, four, two};
use super::file::File;
use super::refusal::refusal;
use super::rule::{SLOTS, Span};
use super::spelling::spelt_at;
use fault::{BookCause, Fault};
use meaning::through;

/// A set has a member, and each is below `count`.
fn some_under(set: u32, count: usize) -> bool
    requires { count ≤ 32 }
    ensures { result ≡ some_under set count }
{
    set != 0 && u64::from(set) >> count == 0
}

/// A field is right, or else it is refused at its place.
fn field(right: bool, at: usize) -> Result<(), Fault>
    requires { at < 2 ^ 32 }
    ensures { result ≡ require right (book_fault Field at 0) (Ok tt) }
{
    if right {
        return Ok(());
    }
    Err(refusal(BookCause::Field, at, 0))
}

impl File<'_> {
    /// The mask of a device names only resources.
    fn mask(&self, d: usize) -> Result<(), Fault>
        requires { d < self.now.layout.devices }
        ensures { result ≡ mask_checked self.now.bytes.now (plan self.now.layout) d tt }
    {
        let at = self.layout.mask_from(d);
        let cells = four(self.bytes, at);
        field(u64::from(cells) >> self.layout.resources == 0, at)
    }

    /// A pair starts where the last ended and does not pass the code's end; the answer is where it ends.
    fn pair(&self, at: usize, next: u16) -> Result<u16, Fault>
        requires { at < 2 ^ 16 }
        ensures { result ≡ pair_checked self.now.bytes.now (plan self.now.layout) at next }
    {
        let code: Span = spelt_at(self.bytes, at);
        let end = u32::from(next) + u32::from(code.size);
        field(code.from == next && end <= u32::from(self.layout.room), at)?;
        Ok(end as u16)
    }

    /// One of the `k` slots before has the target.
    fn is_repeated(&self, at: usize, target: u8, k: usize) -> bool
        requires place { at < 2 ^ 16 }
        requires slot { k < 4 }
        ensures { result ≡ repeated self.now.bytes.now at target k }
    {
        (0..k).any(|j| byte(self.bytes, at + 5 * j) == target)
    }

    /// Slot `k` of the action at `at`: used, it has a new target and its pair follows; unused, it is zero.
    #[tactic(auto, unfolding(meaning::specs::Reading::slot_checked))]
    fn slot(&self, at: usize, count: u8, k: usize, next: u16) -> Result<u16, Fault>
        requires place { at < 2 ^ 15 }
        requires slot { k < 4 }
        ensures { result ≡ slot_checked self.now.bytes.now (plan self.now.layout) at count k next }
    {
        let place = at + 5 * k;
        let target = byte(self.bytes, place);
        if k < usize::from(count) {
            let new = !self.is_repeated(at, target, k);
            field(usize::from(target) < self.layout.resources && new, place)?;
            return self.pair(place + 1, next);
        }
        field(target == 0, place)?;
        field(four(self.bytes, place + 1) == 0, place + 1)?;
        Ok(next)
    }

    /// The four slots of the action at `at`, of which `count` are used.
    #[tactic(auto, unfolding(meaning::specs::Reading::action_checked))]
    fn action(&self, at: usize, count: u8, next: u16) -> Result<u16, Fault>
        requires { at < 2 ^ 15 }
        ensures { result ≡ action_checked self.now.bytes.now (plan self.now.layout) at count next }
    {
        through(SLOTS, next, |k, next| self.slot(at, count, k, next))
    }

    /// Carriers, events, kind and counts of the rule at `at`.
    #[tactic(auto, unfolding(meaning::specs::Reading::head_checked))]
    fn head(&self, at: usize) -> Result<(), Fault>
        requires { at < 2 ^ 15 }
        ensures { result ≡ head_checked self.now.bytes.now (plan self.now.layout) at }
    {
        let carriers = u32::from(two(self.bytes, at));
        let events = four(self.bytes, at + 2);
        field(some_under(carriers, self.layout.devices), at)?;
        field(some_under(events, self.layout.resources), at + 2)?;
        field(byte(self.bytes, at + 6) < 2, at + 6)?;
        field(byte(self.bytes, at + 7) <= 4, at + 7)?;
        field(byte(self.bytes, at + 8) <= 4, at + 8)
    }

    /// The rule `i`, whose code begins at `next`.
    #[tactic(auto, unfolding(meaning::specs::Reading::rule_checked))]
    fn rule(&self, i: usize, next: u16) -> Result<u16, Fault>
        requires { i < self.now.layout.rules }
        ensures { result ≡ rule_checked self.now.bytes.now (plan self.now.layout) (rules_from (plan self.now.layout) + 53 * i) next }
    {
        let at = self.layout.rule_from(i);
        self.head(at)?;
        let next = self.pair(at + 9, next)?;
        let next = self.action(at + 13, byte(self.bytes, at + 7), next)?;
        self.action(at + 33, byte(self.bytes, at + 8), next)
    }

    /// The clause `i`, whose code begins at `next`.
    fn clause(&self, i: usize, next: u16) -> Result<u16, Fault>
        requires { i < self.now.layout.clauses }
        ensures { result ≡ clause_checked self.now.bytes.now (plan self.now.layout) (clauses_from (plan self.now.layout) + 5 * i) next }
    {
        let at = self.layout.clause_from(i);
        field(usize::from(byte(self.bytes, at)) < self.layout.devices, at)?;
        self.pair(at + 1, next)
    }

    /// The masks of all devices.
    fn masks(&self) -> Result<(), Fault>
        ensures { result ≡ through (mask_checked self.now.bytes.now (plan self.now.layout)) self.now.layout.devices 0 tt }
    {
        through(self.layout.devices, (), |d, ()| self.mask(d))
    }

    /// All rules; the answer is where their code ends.
    fn rules(&self) -> Result<u16, Fault>
        ensures { result ≡ through (λ i. rule_checked self.now.bytes.now (plan self.now.layout) (rules_from (plan self.now.layout) + 53 * i)) self.now.layout.rules 0 0 }
    {
        through(self.layout.rules, 0, |i, next| self.rule(i, next))
    }

    /// All clauses, whose code begins at `next`; the answer is where it ends.
    fn clauses(&self, next: u16) -> Result<u16, Fault>
        ensures { result ≡ through (λ i. clause_checked self.now.bytes.now (plan self.now.layout) (clauses_from (plan self.now.layout) + 5 * i)) self.now.layout.clauses 0 next }
    {
        through(self.layout.clauses, next, |i, next| self.clause(i, next))
    }

    /// Every field of the sections, and that no code is left over.
    #[tactic(auto, unfolding(meaning::specs::Reading::fields_checked))]
    pub fn fields(&self) -> Result<(), Fault>
        ensures { result ≡ fields_checked self.now.bytes.now (plan self.now.layout) }
    {
        self.masks()?;
        let next = self.rules()?;
        let end = self.clauses(next)?;
        field(
            end == self.layout.room,
            self.layout.code_from() + usize::from(end),
        )
    }
}
