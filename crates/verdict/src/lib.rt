//! The verdict on a book under a security order.
#![tactic(auto)]

mod accepted;
mod case;
mod flow_buffer;
mod flow_kind;
mod gather;
mod judging;
mod kind_number;
mod landing;
mod levels_known;
mod listing;
mod part_sets;
mod put;
mod row;

pub use accepted::Accepted;
pub use flow_kind::{FlowKind, UnknownFlowKind};
pub use gather::{received, targets};
pub use judging::{flows, judge, may_judge};
pub use landing::lands;
