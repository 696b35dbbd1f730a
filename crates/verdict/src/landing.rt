//! Where a part can land, and which clauses watch it.
ghost use Rattle.std.specs.Prelude.{◌≡◌, ◌<◌};
ghost use Rattle.meaning.specs.Flow as meant;
ghost use Rattle.book.specs.Means.{code_of, rule_means, means};
ghost use Rattle.book.specs.Parts.{number};
ghost use Rattle.verdict.specs.Parts.{SetsOf};

use super::gather::{both_reads, received, targets};
use super::part_sets::PartSets;
use book::{Book, CheckedClause, CheckedRule, Kind, NumberedRule, Part, Rule, Side};

/// Whether a part can land on a device. `received` is what a remote task needs of its receiver.
pub fn lands(book: &Book, rule: &Rule, part: Part, received: u32, device: u8) -> bool
    requires near { device < 16 }
    requires received { received ≡ meant.received (rule_means (code_of book.now) rule.now) }
    ensures { result ≡ meant.lands (means book.now) (rule_means (code_of book.now) rule.now) (number part) device }
{
    match (part, rule.kind) {
        (Part::Task, Kind::Remote) => {
            let cells = book.cells_of(usize::from(device));
            received & cells == received && rule.carriers != 1 << device
        }
        _ => (rule.carriers >> device) % 2 == 1,
    }
}

/// What the clauses that watch a part read; `set` has the targets of the part.
fn watched(rule: &NumberedRule<'_>, part: Part, set: u32) -> u32
    requires { set ≡ meant.set_by 0 (meant.slots_of (rule_means (code_of rule.now.of.book.now) rule.now.of.rule.now) (number part)) }
    ensures { result ≡ meant.watched (means rule.now.of.book.now) (rule_means (code_of rule.now.of.book.now) rule.now.of.rule.now) (number part) 0 (means rule.now.of.book.now).clauses }
{
    let received = received(&rule.of);
    let CheckedRule { book, rule } = rule.of;
    let mut all = 0;
    for clause in book.used_clauses() {
        let clause = CheckedClause { book, clause };
        let test = clause.test();
        if test.reads(0, Side::Own) & set != 0
            && lands(book, rule, part, received, clause.clause.device)
        {
            all = test.reads(all, Side::Own);
        }
    }
    all
}

/// The sets of a part.
pub(crate) fn sets_of(rule: &NumberedRule<'_>, part: Part) -> PartSets
    ensures { SetsOf (means rule.now.of.book.now) (rule_means (code_of rule.now.of.book.now) rule.now.of.rule.now) (number part) result }
{
    let targets = targets(0, &rule.of.action(part));
    PartSets {
        targets,
        events: rule.of.rule.events,
        condition: match part {
            Part::Default => 0,
            Part::Task => both_reads(0, &rule.of.condition()),
        },
        watched: watched(rule, part, targets),
    }
}
