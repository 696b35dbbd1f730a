//! The verdict on a book under an order: every forbidden flow, in numbers and in words.
use super::failure::Failure;
use book::{Book, CLAUSES, Draft, Part, RESOURCES, RULES, SLOTS};
use fault::FIRST_CLAUSE;
use levels::Order;
use std::alloc::{AllocError, Global};
use std::fmt;
use verdict::{FlowKind, flows, may_judge};

/// The bytes of a flow in the list: rule, part, kind, target and source.
const FLOW: usize = 5;

/// The most flows by rules: of two parts, in four kinds, to each target from each resource.
const RULE_FLOWS: usize = RULES * 2 * 4 * SLOTS * RESOURCES;

/// The most flows by clauses: to each resource from each resource.
const CLAUSE_FLOWS: usize = CLAUSES * RESOURCES * RESOURCES;

/// Room for the longest list.
const LONGEST: usize = (RULE_FLOWS + CLAUSE_FLOWS) * FLOW;

/// By whom a flow goes: a part of a rule, or a clause.
#[derive(Clone, Copy)]
enum Way {
    Rule(u8, Part),
    Clause(u8),
}

impl Way {
    /// The way that the first two numbers of a flow name. A part that there is not would be taken for a task.
    fn of(rule: u8, part: u8) -> Way {
        match rule.checked_sub(FIRST_CLAUSE) {
            Some(clause) => Way::Clause(clause),
            None => Way::Rule(rule, Part::try_from(part).unwrap_or(Part::Task)),
        }
    }
}

/// The way in words, as `rule 3, task` or `clause 0`.
impl fmt::Display for Way {
    fn fmt<W: fmt::Write>(&self, f: &mut fmt::Formatter<W>) -> fmt::Result {
        match self {
            Way::Rule(rule, Part::Default) => write!(f, "rule {rule}, default"),
            Way::Rule(rule, Part::Task) => write!(f, "rule {rule}, task"),
            Way::Clause(clause) => write!(f, "clause {clause}"),
        }
    }
}

/// What lets a source flow to a target, in words.
#[derive(Clone, Copy)]
struct Reason(FlowKind);

impl fmt::Display for Reason {
    fn fmt<W: fmt::Write>(&self, f: &mut fmt::Formatter<W>) -> fmt::Result {
        f.write_str(match self.0 {
            FlowKind::Event => "an event",
            FlowKind::Condition => "read by the condition",
            FlowKind::Value => "read by the expression for the target",
            FlowKind::Watched => "read by a clause that watches a target",
            FlowKind::Clause => "read together with the target",
        })
    }
}

/// A forbidden flow of a book, with its numbers as the list has them.
#[derive(Clone, Copy)]
struct Leak<'a> {
    book: &'a Book,
    numbers: [u8; FLOW],
}

/// Two lines: the numbers, and a sentence. A kind that there is not would be taken for that of clauses.
impl fmt::Display for Leak<'_> {
    fn fmt<W: fmt::Write>(&self, f: &mut fmt::Formatter<W>) -> fmt::Result {
        let [rule, part, kind, target, source] = self.numbers;
        let way = Way::of(rule, part);
        let reason = Reason(FlowKind::try_from(kind).unwrap_or(FlowKind::Clause));
        let from = self.book.level_of(usize::from(source));
        let to = self.book.level_of(usize::from(target));
        writeln!(f, "flow {rule} {part} {kind} {target} {source}")?;
        writeln!(
            f,
            "  r{source} of level {from} leaks to r{target} of level {to} by {way}: it is {reason}."
        )
    }
}

/// The lines of every flow of a list.
fn lines(heap: Global, book: &Book, list: &[u8]) -> Result<String, AllocError> {
    let (flows, _) = list.as_chunks::<FLOW>();
    flows
        .iter()
        .map(|&numbers| Leak { book, numbers }.to_string(heap))
        .try_collect(heap)
}

/// The verdict on a draft: `accepted`, or a failure with each forbidden flow.
pub fn judged<O: Order>(
    heap: Global,
    draft: &Draft,
    order: &O,
) -> Result<String, Failure<'static>> {
    let Err(fault) = may_judge(draft, order) else {
        return Ok(String::from_str(heap, "accepted\n")?);
    };
    let mut room = vec![in heap; 0u8; LONGEST]?;
    // Where a level is not one of the order's there is no list.
    let length = flows(draft, order, room.as_mut_slice()).unwrap_or(0);
    let list = room.as_slice().get(..length).unwrap_or(&[]);
    let leaks = lines(heap, draft.book(), list)?;
    Err(Failure::NotAccepted { leaks, fault })
}
