//! The count of the cases of a group.
use super::answer::Answer;
use std::alloc::Global;
use std::{fmt, io};

/// How many cases of a group were tried, and how many of them went wrong, which it prints.
#[derive(Drop)]
pub struct Tally<'a> {
    pub rt: &'a HostRuntime,
    name: &'a str,
    cases: u32,
    wrong: u32,
}

impl<'a> Tally<'a> {
    /// The tally of a group before its cases.
    pub fn new(rt: &'a HostRuntime, name: &'a str) -> Tally<'a> {
        Tally {
            rt,
            name,
            cases: 0,
            wrong: 0,
        }
    }

    /// Where cases get their memory.
    pub fn heap(&self) -> Global {
        self.rt.alloc()
    }

    /// Counts a case, and prints what was expected and what came where these differ.
    pub fn hold<C: fmt::Display + Drop, T: fmt::Display + PartialEq + Drop>(
        &mut self,
        case: C,
        expected: T,
        came: T,
    ) -> io::Result<()> {
        self.cases = self.cases.saturating_add(1);
        if expected == came {
            return Ok(());
        }
        self.wrong = self.wrong.saturating_add(1);
        let name = self.name;
        println!(self.rt; "wrong: {name}, {case}: expected {expected}, came {came}")
    }

    /// Counts the case of reading a file.
    pub fn reading<C: fmt::Display + Drop>(
        &mut self,
        case: C,
        expected: Answer,
        file: &[u8],
    ) -> io::Result<()> {
        self.hold(case, expected, Answer::to(file))
    }

    /// Tries the cases of a group, prints its line, and adds them to these.
    pub fn group<F: FnOnce(&mut Tally<'a>) -> io::Result<()>>(
        &mut self,
        name: &'a str,
        cases: F,
    ) -> io::Result<()>
        requires { F.IsAlwaysCallable cases }
    {
        let mut group = Tally::new(self.rt, name);
        cases(&mut group)?;
        self.cases = self.cases.saturating_add(group.cases);
        self.wrong = self.wrong.saturating_add(group.wrong);
        println!(self.rt; "{group}")
    }

    /// Whether no case went wrong.
    pub fn is_right(&self) -> bool {
        self.wrong == 0
    }
}

/// `NAME: N cases, M wrong`.
impl fmt::Display for Tally<'_> {
    fn fmt<W: fmt::Write>(&self, f: &mut fmt::Formatter<W>) -> fmt::Result {
        let Tally {
            name,
            cases,
            wrong,
            ..
        } = self;
        write!(f, "{name}: {cases} cases, {wrong} wrong")
    }
}
