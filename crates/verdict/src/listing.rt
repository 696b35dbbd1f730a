//! The list of forbidden flows, put row by row.
ghost use Rattle.std.specs.Prelude.{◌≡◌, ℕ, ◌+◌, ◌^◌, ◌<◌, ◌≤◌, length, filter, slice_index};
ghost use Rattle.std.specs.List.{range_with_len, flat_map};
ghost use Rattle.meaning.specs.Flow.{forbidden, read_for};
ghost use Rattle.meaning.specs.FlowList.{of_kind, of_part, of_rule, of_clause, flow_list};
ghost use Rattle.levels.specs.Scales.{scaled};
ghost use Rattle.book.specs.Means.{code_of, action_means, means};
ghost use Rattle.book.specs.Parts as parts;
ghost use Rattle.verdict.specs.Kinds as kinds;
ghost use Rattle.verdict.specs.Puts.{Put, PutInto};
ghost use Rattle.verdict.specs.Rows.{in_row};

use super::case::Case;
use super::flow_buffer::FlowBuffer;
use super::flow_kind::FlowKind;
use super::gather::read_for;
use super::landing::sets_of;
use super::row::Row;
use book::{
    CheckedAction, CheckedBook, CheckedClause, CheckedRule, NumberedClause, NumberedRule, Part,
    RESOURCES, Side,
};
use fault::FIRST_CLAUSE;
use levels::Scale;
use std::array;

/// What the expression for each target of an action reads.
fn values(action: &CheckedAction<'_>) -> [u32; RESOURCES]
    ensures { (t : ℕ) → t < 32 → slice_index result t ≡ read_for t 0 (action_means (code_of action.now.book.now) action.now.action.now) }
{
    array::from_fn(|target| read_for(target, action))
}

impl Case<'_> {
    /// Puts the flows of a row, target by target; `sources` has a set for each target.
    fn put_row(
        &self,
        buffer: &mut FlowBuffer<'_>,
        row: Row,
        targets: u32,
        sources: &[u32; RESOURCES],
    )
        requires { buffer.old.at < 2 ^ 38 }
        ensures put { PutInto buffer.old buffer.new (filter (in_row (scaled self.now.scale.now) (means self.now.book.now) targets (λ t. slice_index sources.now t)) (of_kind (means self.now.book.now) row.rule row.part (kinds.number row.kind))) }
        ensures bound { buffer.new.at ≤ buffer.old.at + 5120 }
    {
        // The number is what is wanted of a resource, for the set and for the flow.
        for target in 0..self.book.used_levels().len() {
            if (targets >> target) % 2 == 1 {
                self.put_target(buffer, row, target as u8, sources[target]);
            }
        }
    }
}

/// Puts the flows of a part of a rule, kind by kind.
// The order stays beside the buffer here and below: inside it, each contract would have to say that it stays.
fn put_part(scale: &Scale, buffer: &mut FlowBuffer<'_>, rule: &NumberedRule<'_>, part: Part)
    requires { buffer.old.at < 2 ^ 37 }
    ensures put { PutInto buffer.old buffer.new (filter (forbidden (scaled scale.now) (means rule.now.of.book.now)) (of_part (means rule.now.of.book.now) rule.now.number (parts.number part))) }
    ensures bound { buffer.new.at ≤ buffer.old.at + 20480 }
{
    let case = Case {
        book: rule.of.book,
        scale,
    };
    let sets = sets_of(rule, part);
    let targets = sets.targets;
    let row = Row {
        rule: rule.number,
        part: part.number(),
        kind: FlowKind::Event,
    };
    case.put_row(buffer, row, targets, &[sets.events; RESOURCES]);
    let row = Row {
        kind: FlowKind::Condition,
        ..row
    };
    case.put_row(buffer, row, targets, &[sets.condition; RESOURCES]);
    let row = Row {
        kind: FlowKind::Value,
        ..row
    };
    case.put_row(buffer, row, targets, &values(&rule.of.action(part)));
    let row = Row {
        kind: FlowKind::Watched,
        ..row
    };
    let watched = [sets.watched; RESOURCES];
    case.put_row(buffer, row, targets, &watched);
}

/// Puts the flows of a rule.
fn put_rule(scale: &Scale, buffer: &mut FlowBuffer<'_>, rule: &NumberedRule<'_>)
    requires { buffer.old.at < 2 ^ 36 }
    ensures put { PutInto buffer.old buffer.new (filter (forbidden (scaled scale.now) (means rule.now.of.book.now)) (of_rule (means rule.now.of.book.now) rule.now.number)) }
    ensures bound { buffer.new.at ≤ buffer.old.at + 40960 }
{
    put_part(scale, buffer, rule, Part::Default);
    put_part(scale, buffer, rule, Part::Task);
}

fn put_rules(scale: &Scale, buffer: &mut FlowBuffer<'_>, book: &CheckedBook<'_>)
    requires { buffer.old.at < 2 ^ 35 }
    ensures put { PutInto buffer.old buffer.new (filter (forbidden (scaled scale.now) (means book.now.book.now)) (flat_map (of_rule (means book.now.book.now)) (range_with_len 0 (length (means book.now.book.now).rules)))) }
    ensures bound { buffer.new.at ≤ buffer.old.at + 2 ^ 21 }
{
    let book = book.book;
    for (number, rule) in book.used_rules().iter().enumerate() {
        let of = CheckedRule { book, rule };
        let number = number as u8;
        put_rule(scale, buffer, &NumberedRule { of, number });
    }
}

/// Puts the flows of a clause.
fn put_clause(scale: &Scale, buffer: &mut FlowBuffer<'_>, clause: &NumberedClause<'_>)
    requires { buffer.old.at < 2 ^ 36 }
    ensures put { PutInto buffer.old buffer.new (filter (forbidden (scaled scale.now) (means clause.now.of.book.now)) (of_clause (means clause.now.of.book.now) clause.now.number)) }
    ensures bound { buffer.new.at ≤ buffer.old.at + 5120 }
{
    let case = Case {
        book: clause.of.book,
        scale,
    };
    let set = clause.of.test().reads(0, Side::Own);
    let row = Row {
        rule: FIRST_CLAUSE + clause.number,
        part: 0,
        kind: FlowKind::Clause,
    };
    case.put_row(buffer, row, set, &[set; RESOURCES]);
}

fn put_clauses(scale: &Scale, buffer: &mut FlowBuffer<'_>, book: &CheckedBook<'_>)
    requires { buffer.old.at < 2 ^ 35 }
    ensures put { PutInto buffer.old buffer.new (filter (forbidden (scaled scale.now) (means book.now.book.now)) (flat_map (of_clause (means book.now.book.now)) (range_with_len 0 (length (means book.now.book.now).clauses)))) }
    ensures bound { buffer.new.at ≤ buffer.old.at + 2 ^ 18 }
{
    let book = book.book;
    for (number, clause) in book.used_clauses().iter().enumerate() {
        let of = CheckedClause { book, clause };
        let number = number as u8;
        put_clause(scale, buffer, &NumberedClause { of, number });
    }
}

/// Puts the whole list, and answers its length.
pub(crate) fn put_flows(scale: &Scale, book: &CheckedBook<'_>, out: &mut [u8]) -> usize
    ensures put { Put out.old out.new 0 result (flow_list (scaled scale.now) (means book.now.book.now)) }
    ensures bound { result < 2 ^ 22 }
{
    let mut buffer = FlowBuffer { out, at: 0 };
    put_rules(scale, &mut buffer, book);
    put_clauses(scale, &mut buffer, book);
    buffer.at
}
