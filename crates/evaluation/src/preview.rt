//! The cells of a host as some changes would leave them.
ghost use Rattle.std.specs.Prelude.{◌≡◌};
ghost use Rattle.runs.specs.Table.{cell};
ghost use Rattle.evaluation.specs.Shown.{shown};

use super::changes::Changes;
use hosts::Host;

/// The cells of a host as some changes would leave them.
#[derive_where(Clone, Copy)]
pub struct Preview<'a, H> {
    pub host: &'a H,
    pub changes: &'a Changes,
}

impl<H: Host> Preview<'_, H> {
    /// The value that a cell would have if the changes were written, or nothing where the host has no such cell.
    #[tactic(auto, using(crate::proofs::Written::posted_at))]
    pub fn cell(&self, device: u32, resource: u32) -> Option<i32>
        ensures { result ≡ shown H.Host.table self.now device resource }
    {
        self.host
            .read(device, resource)
            .map(|value| self.changes.overridden(device, resource, value))
    }

    /// What an expression takes a cell for: one that is not there counts as 0.
    pub(crate) fn amount(&self, device: u32, resource: u8) -> i32
        ensures { result ≡ cell (shown H.Host.table self.now) device resource }
    {
        self.cell(device, u32::from(resource)).unwrap_or(0)
    }
}
