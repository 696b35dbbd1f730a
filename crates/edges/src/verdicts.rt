//! Verdicts on books under orders, with the answers that they are to have.
use super::answer::Answer;
use super::tally::Tally;
use super::vectors::file;
use book::{Draft, read};
use fault::Fault;
use levels::{Ladder, Order, SetOrder};
use std::alloc::{AllocError, Global};
use std::{fmt, fs, io};
use verdict::{flows, may_judge};

/// Room for every list of the files.
const ROOM: usize = 65_536;

/// Which order a book is judged under.
#[derive(Clone, Copy)]
enum OrderKind {
    Ladder,
    Sets,
}

/// Every word but `ladder` is taken for that of sets, so that no line is passed over for it.
impl From<&str> for OrderKind {
    fn from(word: &str) -> OrderKind {
        match word {
            "ladder" => OrderKind::Ladder,
            _ => OrderKind::Sets,
        }
    }
}

/// What is asked of a book: whether it may be judged, or the list of its forbidden flows.
#[derive(Clone, Copy)]
enum Asked {
    Judge,
    Flows,
}

/// Every word but `judge` is taken for that of the list, as with orders.
impl From<&str> for Asked {
    fn from(word: &str) -> Asked {
        match word {
            "judge" => Asked::Judge,
            _ => Asked::Flows,
        }
    }
}

/// One line of the list: a book, an order with its size, what is asked, and the answer.
#[derive(Clone, Copy)]
struct Case<'a> {
    book: &'a str,
    order: OrderKind,
    size: u32,
    asked: Asked,
    expected: &'a str,
}

impl<'a> Case<'a> {
    /// The case that a line spells.
    fn of(line: &'a str) -> Option<Case<'a>> {
        let (book, rest) = line.split_once(' ')?;
        let (order, rest) = rest.split_once(' ')?;
        let (size, rest) = rest.split_once(' ')?;
        let (asked, expected) = rest.split_once(' ')?;
        Some(Case {
            book,
            order: OrderKind::from(order),
            size: size.parse().ok()?,
            asked: Asked::from(asked),
            expected,
        })
    }

    /// What the case's book is told.
    fn said(&self, heap: Global, draft: &Draft) -> Result<String, AllocError> {
        match self.order {
            OrderKind::Ladder => said(heap, draft, Ladder::new(self.size), self.asked),
            OrderKind::Sets => said(heap, draft, SetOrder::new(self.size), self.asked),
        }
    }
}

/// The bytes of a list in hexadecimal, or `none`.
#[derive(Clone, Copy)]
struct Hexadecimal<'a>(&'a [u8]);

impl fmt::Display for Hexadecimal<'_> {
    fn fmt<W: fmt::Write>(&self, f: &mut fmt::Formatter<W>) -> fmt::Result {
        if self.0.is_empty() {
            return write!(f, "none");
        }
        for byte in self.0 {
            write!(f, "{byte:02x}")?;
        }
        Ok(())
    }
}

/// What the list says: its bytes, or the text of the fault.
fn listed<O: Order>(heap: Global, draft: &Draft, order: &O) -> Result<String, AllocError> {
    let mut room = vec![in heap; 0u8; ROOM]?;
    match flows(draft, order, &mut room) {
        Ok(length) => Hexadecimal(room.get(..length).unwrap_or(&[])).to_string(heap),
        Err(fault) => fault.to_string(heap),
    }
}

/// What is said under an order, if there is one of the size.
fn said<O: Order + Drop>(
    heap: Global,
    draft: &Draft,
    order: Result<O, Fault>,
    asked: Asked,
) -> Result<String, AllocError> {
    let order = match order {
        Ok(order) => order,
        Err(fault) => return fault.to_string(heap),
    };
    match asked {
        Asked::Judge => Answer(may_judge(draft, &order)).to_string(heap),
        Asked::Flows => listed(heap, draft, &order),
    }
}

/// Reads a book's file into a draft, which stays as it was where the file is refused.
fn load(rt: &HostRuntime, name: &str, draft: &mut Draft) -> io::Result<()> {
    let _ = read(&file(rt, "books", name)?, draft);
    Ok(())
}

/// Each book of the list is judged, and its flows are listed, as the list says.
pub fn verdicts(tally: &mut Tally<'_>) -> io::Result<()> {
    let rt = tally.rt;
    let list = fs::read_to_string(rt, "verdicts.txt")?;
    for line in list.lines() {
        let Some(case) = Case::of(line) else {
            continue;
        };
        let mut draft = Draft::smallest();
        load(rt, case.book, &mut draft)?;
        let came = case.said(tally.heap(), &draft)?;
        tally.hold(line, case.expected, came.as_str())?;
    }
    Ok(())
}

/// A list in a buffer of a length, filled with `a` bytes before: what is answered, and what the buffer then holds.
fn within(heap: Global, draft: &Draft, length: usize) -> Result<String, AllocError> {
    let Ok(ladder) = Ladder::new(2) else {
        return String::from_str(heap, "no ladder");
    };
    let mut room = vec![in heap; 0xaau8; length]?;
    let answer = flows(draft, &ladder, &mut room);
    let held = Hexadecimal(&room);
    match answer {
        Ok(length) => format!(in heap; "{length} {held}"),
        Err(fault) => format!(in heap; "{fault} {held}"),
    }
}

/// A list of one flow in buffers of 4, 5 and 7 bytes: too short, exact, and with bytes beyond that stay.
pub fn buffers(tally: &mut Tally<'_>) -> io::Result<()> {
    let mut draft = Draft::smallest();
    load(tally.rt, "kind-3", &mut draft)?;
    let cases = [
        ("too short", 4, "no 9 5 4 aaaaaaaa"),
        ("exact", 5, "5 0000030001"),
        ("longer", 7, "5 0000030001aaaa"),
    ];
    for (name, length, expected) in cases {
        let came = within(tally.heap(), &draft, length)?;
        tally.hold(name, expected, came.as_str())?;
    }
    Ok(())
}
