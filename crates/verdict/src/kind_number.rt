//! The numbers of the kinds.
ghost use Rattle.std.specs.Prelude.{◌≡◌};
ghost use Rattle.verdict.specs.Kinds.{number, Decodes};

use super::flow_kind::{FlowKind, UnknownFlowKind};

impl FlowKind {
    /// The number of a kind in the list.
    pub fn number(self) -> u8
        ensures { result ≡ number self }
    {
        self as u8
    }
}

/// The kind that a number of the list names.
impl TryFrom<u8> for FlowKind {
    type Error = UnknownFlowKind;

    ghost try_from_gives = { Decodes };

    fn try_from(number: u8) -> Result<FlowKind, UnknownFlowKind> {
        match number {
            1 => Ok(FlowKind::Event),
            2 => Ok(FlowKind::Condition),
            3 => Ok(FlowKind::Value),
            4 => Ok(FlowKind::Watched),
            5 => Ok(FlowKind::Clause),
            _ => Err(UnknownFlowKind(number)),
        }
    }
}
