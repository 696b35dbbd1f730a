//! The sets that flows come from.
ghost use Rattle.std.specs.Prelude.{◌≡◌};
ghost use Rattle.meaning.specs.Expression.{decoded};
ghost use Rattle.meaning.specs.Flow as meant;
ghost use Rattle.book.specs.Means.{code_of, action_means, rule_means};

use book::{CheckedAction, CheckedCode, CheckedRule, CheckedSlot, Part, Side, with_member};

/// What some code reads of both sides, beside the members of `set`.
pub(crate) fn both_reads(set: u32, code: &CheckedCode<'_>) -> u32
    ensures { result ≡ meant.both_reads set (decoded code.now.bytes.now) }
{
    code.reads(code.reads(set, Side::Own), Side::Receiver)
}

/// The targets of an action, beside the members of `set`.
pub fn targets(set: u32, action: &CheckedAction<'_>) -> u32
    ensures { result ≡ meant.set_by set (action_means (code_of action.now.book.now) action.now.action.now) }
{
    let mut set = set;
    for slot in action.action.used() {
        let slot = CheckedSlot {
            book: action.book,
            slot,
        };
        set = with_member(set, slot.slot.target);
    }
    set
}

/// The receiver's cells that an action reads, beside the members of `set`.
fn asked(set: u32, action: &CheckedAction<'_>) -> u32
    ensures { result ≡ meant.asked_by set (action_means (code_of action.now.book.now) action.now.action.now) }
{
    let mut set = set;
    for slot in action.action.used() {
        let slot = CheckedSlot {
            book: action.book,
            slot,
        };
        set = slot.value().reads(set, Side::Receiver);
    }
    set
}

/// What the expression for a target reads.
pub(crate) fn read_for(target: usize, action: &CheckedAction<'_>) -> u32
    ensures { result ≡ meant.read_for target 0 (action_means (code_of action.now.book.now) action.now.action.now) }
{
    let mut set = 0;
    for slot in action.action.used() {
        let slot = CheckedSlot {
            book: action.book,
            slot,
        };
        if usize::from(slot.slot.target) == target {
            set = both_reads(set, &slot.value());
        }
    }
    set
}

/// The cells that a remote task or its condition reads or sets as the receiver's.
pub fn received(rule: &CheckedRule<'_>) -> u32
    ensures { result ≡ meant.received (rule_means (code_of rule.now.book.now) rule.now.rule.now) }
{
    let condition = rule.condition().reads(0, Side::Receiver);
    let task = rule.action(Part::Task);
    targets(asked(condition, &task), &task)
}
