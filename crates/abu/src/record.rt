//! The record of a book: what it holds, a line for each item.
use super::infix::infix;
use book::{Action, Book, Clause, Kind, Rule, Span};
use std::alloc::{AllocError, Global};
use std::{fmt, slice};

/// A number of things, as `1 rule` or `4 rules`.
#[derive(Clone, Copy)]
struct Counted(usize, &'static str);

impl fmt::Display for Counted {
    fn fmt<W: fmt::Write>(&self, f: &mut fmt::Formatter<W>) -> fmt::Result {
        let Counted(count, thing) = *self;
        if count == 1 {
            write!(f, "1 {thing}")
        } else {
            write!(f, "{count} {thing}s")
        }
    }
}

/// What writes out the record of a book, on a heap.
#[derive(Clone, Copy)]
struct Scribe<'a> {
    heap: Global,
    book: &'a Book,
}

impl Scribe<'_> {
    /// The members of a mask of devices or of resources, ascending.
    fn members(&self, mask: u32) -> Result<Vec<u32>, AllocError> {
        (0..u32::BITS)
            .filter(|bit| (mask >> *bit) % 2 == 1)
            .collect(self.heap)
    }

    /// The members of a mask, each behind a prefix, as `r0, r4`.
    fn names(&self, mask: u32, prefix: &str) -> Result<String, AllocError> {
        let names: Vec<String> = self
            .members(mask)?
            .iter()
            .map(|member| format!(in self.heap; "{prefix}{member}"))
            .try_collect(self.heap)?;
        names.join(self.heap, ", ")
    }

    /// The cells of a device with their starts, which are taken from `starts`, as `r0 = 21, r4 = 0`.
    fn cells(&self, mask: u32, starts: &mut slice::Iter<'_, i32>) -> Result<String, AllocError> {
        if mask == 0 {
            return String::from_str(self.heap, "no cells");
        }
        let cells: Vec<String> = self
            .members(mask)?
            .iter()
            .zip(starts)
            .map(|(resource, start)| format!(in self.heap; "r{resource} = {start}"))
            .try_collect(self.heap)?;
        cells.join(self.heap, ", ")
    }

    /// The infix text of an expression.
    fn expression(&self, span: Span) -> Result<String, AllocError> {
        infix(self.heap, self.book.code_of(span))
    }

    /// The assignments of an action, as `r2 := 1, r3 := 0`, with a prefix before each target.
    fn assignments(&self, action: &Action, prefix: &str) -> Result<String, AllocError> {
        let assignments: Vec<String> = action
            .used()
            .iter()
            .map(|slot| -> Result<String, AllocError> {
                let target = slot.target;
                let value = self.expression(slot.value)?;
                format!(in self.heap; "{prefix}r{target} := {value}")
            })
            .try_collect(self.heap)?;
        assignments.join(self.heap, ", ")
    }

    /// The heading of a rule: where its task goes, the devices that carry it, and the events that it waits for.
    fn heading(&self, rule: &Rule) -> Result<String, AllocError> {
        let kind = match rule.kind {
            Kind::Local => "local",
            Kind::Remote => "remote",
        };
        let carriers = self.names(u32::from(rule.carriers), "")?;
        let events = self.names(rule.events, "r")?;
        format!(in self.heap; "{kind}; carriers {carriers}; events {events}")
    }

    /// The line of a rule's default action; none where it has no assignment.
    fn default_line(&self, rule: &Rule) -> Result<String, AllocError> {
        if rule.defaults.count == 0 {
            return Ok(String::new(self.heap));
        }
        let assigned = self.assignments(&rule.defaults, "")?;
        format!(in self.heap; "  default {assigned}\n")
    }

    /// The condition of a rule with its task.
    fn task(&self, rule: &Rule) -> Result<String, AllocError> {
        let condition = self.expression(rule.condition)?;
        if rule.tasks.count == 0 {
            return format!(in self.heap; "if {condition} then nothing");
        }
        let prefix = match rule.kind {
            Kind::Local => "",
            Kind::Remote => "there.",
        };
        let assigned = self.assignments(&rule.tasks, prefix)?;
        format!(in self.heap; "if {condition} then {assigned}")
    }

    /// The line of counts.
    fn counts(&self) -> Result<String, AllocError> {
        let book = self.book;
        let devices = Counted(book.device_count, "device");
        let resources = Counted(book.resource_count, "resource");
        let rules = Counted(book.rule_count, "rule");
        let clauses = Counted(book.clause_count, "clause");
        format!(in self.heap; "book: {devices}, {resources}, {rules}, {clauses}\n")
    }

    fn resources(&self) -> Result<String, AllocError> {
        self.book
            .used_levels()
            .iter()
            .enumerate()
            .map(|(resource, level)| format!(in self.heap; "resource r{resource}: level {level}\n"))
            .try_collect(self.heap)
    }

    fn devices(&self) -> Result<String, AllocError> {
        let mut starts = self.book.starts.iter();
        let mut text = String::new(self.heap);
        // A loop, since the starts of a device begin where those of the last one end.
        for (device, mask) in self.book.used_cells().iter().enumerate() {
            let cells = self.cells(*mask, &mut starts)?;
            writeln!(text, "device {device}: {cells}")?;
        }
        Ok(text)
    }

    /// The lines of a rule: its heading, its default action if it has one, and its task.
    fn rule(&self, number: usize, rule: &Rule) -> Result<String, AllocError> {
        let heading = self.heading(rule)?;
        let default = self.default_line(rule)?;
        let task = self.task(rule)?;
        format!(in self.heap; "rule {number}: {heading}\n{default}  {task}\n")
    }

    fn rules(&self) -> Result<String, AllocError> {
        self.book
            .used_rules()
            .iter()
            .enumerate()
            .map(|(number, rule)| self.rule(number, rule))
            .try_collect(self.heap)
    }

    /// The line of a clause.
    fn clause(&self, number: usize, clause: &Clause) -> Result<String, AllocError> {
        let Clause { device, test } = *clause;
        let test = self.expression(test)?;
        format!(in self.heap; "clause {number}: device {device}; {test}\n")
    }

    fn clauses(&self) -> Result<String, AllocError> {
        self.book
            .used_clauses()
            .iter()
            .enumerate()
            .map(|(number, clause)| self.clause(number, clause))
            .try_collect(self.heap)
    }
}

/// The record of a book, each of its lines ended.
pub fn record(heap: Global, book: &Book) -> Result<String, AllocError> {
    let scribe = Scribe { heap, book };
    let counts = scribe.counts()?;
    let resources = scribe.resources()?;
    let devices = scribe.devices()?;
    let rules = scribe.rules()?;
    let clauses = scribe.clauses()?;
    format!(in heap; "{counts}{resources}{devices}{rules}{clauses}")
}
