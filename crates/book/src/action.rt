//! What a part is: its number, and its action.
ghost use Rattle.std.specs.Prelude.{◌≡◌};
ghost use Rattle.book.specs.Parts as parts;

use super::part::{Part, UnknownPart};
use super::rule::{Action, Rule};

impl Part {
    /// The number of a part: 0 for the default part, 1 for the task.
    pub fn number(self) -> u8
        ensures { result ≡ parts.number self }
    {
        self as u8
    }

    /// The action of a part.
    pub fn action(self, rule: &Rule) -> &Action
        ensures { result.now ≡ parts.action_of rule.now self }
    {
        match self {
            Part::Default => &rule.defaults,
            Part::Task => &rule.tasks,
        }
    }
}

/// The part that a number names.
impl TryFrom<u8> for Part {
    type Error = UnknownPart;

    ghost try_from_gives = { parts.Decodes };

    fn try_from(number: u8) -> Result<Part, UnknownPart> {
        match number {
            0 => Ok(Part::Default),
            1 => Ok(Part::Task),
            _ => Err(UnknownPart(number)),
        }
    }
}
