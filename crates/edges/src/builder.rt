//! Books as values, from which files are made.
use super::sections::{Sections, put_two};
use book::{Kind, SLOTS};
use std::alloc::{AllocError, Global};
use std::iter::repeat_n;

/// The bytes of a slot: its target, and the pair of its value.
const SLOT: usize = 5;

/// One assignment: the target resource, and the code of the value.
#[derive(Drop)]
pub struct Slot {
    pub target: u8,
    pub value: Vec<u8>,
}

/// A rule: carriers and events are masks of devices and of resources.
#[derive(Drop)]
pub struct Rule {
    pub carriers: u16,
    pub events: u32,
    pub kind: Kind,
    pub condition: Vec<u8>,
    pub defaults: Vec<Slot>,
    pub tasks: Vec<Slot>,
}

/// An invariant of a device, with the code of its test.
#[derive(Drop)]
pub struct Clause {
    pub device: u8,
    pub test: Vec<u8>,
}

/// A book. Nothing keeps it within the limits of a file: the counts and pairs of the file follow what it holds.
#[derive(Drop)]
pub struct Builder {
    pub levels: Vec<u8>,
    pub masks: Vec<u32>,
    pub starts: Vec<i32>,
    pub rules: Vec<Rule>,
    pub clauses: Vec<Clause>,
}

/// The low byte of a count.
fn low_byte(count: usize) -> u8 {
    (count & 0xff) as u8
}

/// The byte that says for whom a task is.
fn kind_byte(kind: Kind) -> u8 {
    match kind {
        Kind::Local => 0,
        Kind::Remote => 1,
    }
}

/// The records of a section, and the code of the book so far.
#[derive(Drop)]
struct Writer {
    records: Vec<u8>,
    code: Vec<u8>,
}

impl Writer {
    /// The writer of a section whose expressions go behind some code.
    fn behind(heap: Global, code: Vec<u8>) -> Writer {
        Writer {
            records: Vec::new(heap),
            code,
        }
    }

    /// Puts the pair of an expression into the records, and the expression behind the code so far.
    fn put_expression(&mut self, expression: &[u8]) -> Result<(), AllocError> {
        put_two(&mut self.records, self.code.len())?;
        put_two(&mut self.records, expression.len())?;
        self.code.extend_from_slice(expression)
    }

    /// Puts four slots, zeros where an action has none; a fifth assignment of an action only counts.
    fn put_action(&mut self, action: &[Slot]) -> Result<(), AllocError> {
        for slot in action.iter().take(SLOTS) {
            self.records.push(slot.target)?;
            self.put_expression(&slot.value)?;
        }
        let unused = SLOTS.saturating_sub(action.len());
        self.records.extend(repeat_n(0, SLOT * unused))
    }

    fn put_rule(&mut self, rule: &Rule) -> Result<(), AllocError> {
        self.records
            .extend_from_slice(&rule.carriers.to_be_bytes())?;
        self.records.extend_from_slice(&rule.events.to_be_bytes())?;
        self.records.extend_from_slice(&[
            kind_byte(rule.kind),
            low_byte(rule.defaults.len()),
            low_byte(rule.tasks.len()),
        ])?;
        self.put_expression(&rule.condition)?;
        self.put_action(&rule.defaults)?;
        self.put_action(&rule.tasks)
    }

    fn put_clause(&mut self, clause: &Clause) -> Result<(), AllocError> {
        self.records.push(clause.device)?;
        self.put_expression(&clause.test)
    }
}

impl Builder {
    fn counts(&self) -> [u8; 4] {
        [
            self.masks.len(),
            self.levels.len(),
            self.rules.len(),
            self.clauses.len(),
        ]
        .map(low_byte)
    }

    fn cells(&self, heap: Global) -> Result<Vec<u8>, AllocError> {
        self.masks
            .iter()
            .flat_map(|mask| mask.to_be_bytes())
            .collect(heap)
    }

    fn starts(&self, heap: Global) -> Result<Vec<u8>, AllocError> {
        self.starts
            .iter()
            .flat_map(|start| start.to_be_bytes())
            .collect(heap)
    }

    /// The records of the rules, with their code.
    fn rules(&self, heap: Global) -> Result<Writer, AllocError> {
        let mut writer = Writer::behind(heap, Vec::new(heap));
        for rule in &self.rules {
            writer.put_rule(rule)?;
        }
        Ok(writer)
    }

    /// The records of the clauses, with their code behind that of the rules.
    fn clauses(&self, heap: Global, code: Vec<u8>) -> Result<Writer, AllocError> {
        let mut writer = Writer::behind(heap, code);
        for clause in &self.clauses {
            writer.put_clause(clause)?;
        }
        Ok(writer)
    }

    /// The sections of the book's file.
    pub fn sections(&self, heap: Global) -> Result<Sections, AllocError> {
        let Writer {
            records: rules,
            code,
        } = self.rules(heap)?;
        let Writer {
            records: clauses,
            code,
        } = self.clauses(heap, code)?;
        Ok(Sections {
            counts: self.counts(),
            levels: self.levels.clone()?,
            cells: self.cells(heap)?,
            starts: self.starts(heap)?,
            rules,
            clauses,
            code,
        })
    }

    /// The book's file.
    pub fn file(&self, heap: Global) -> Result<Vec<u8>, AllocError> {
        self.sections(heap)?.file(heap)
    }
}
