//! Changes: values that the cells of one device are to have.
ghost use Rattle.std.specs.Prelude.{◌≡◌, ◌==◌, reverse};
ghost use Rattle.std.specs.List.{find};
ghost use Rattle.std.specs.Option.{option_map};
ghost use Rattle.runs.specs.Table.{Table, write};
ghost use Rattle.evaluation.specs.Posted as meant;
ghost use Rattle.evaluation.specs.Posted.{posted, writes_of};

use book::SLOTS;
use runs::Write;

/// Values that are to be written to the cells of one device, before they are: the first `count` writes, in their order.
// Fixed memory: as many writes as an action has slots.
#[derive(Clone, Copy)]
pub struct Changes {
    pub device: u32,
    pub count: usize,
    pub writes: [Write; SLOTS],
}

impl Changes {
    /// No change.
    #[tactic(auto, unfolding(runs::specs::Table::written))]
    pub fn none() -> Changes
        ensures { (T : Table) → posted result T ≡ T }
    {
        let write = Write {
            target: 0,
            value: 0,
        };
        Changes {
            device: 0,
            count: 0,
            writes: [write; SLOTS],
        }
    }

    /// One value for one cell.
    #[tactic(auto, unfolding(runs::specs::Table::written))]
    pub fn one(device: u32, target: u8, value: i32) -> Changes
        ensures { (T : Table) → posted result T ≡ write T device target value }
    {
        Changes {
            device,
            count: 1,
            writes: [Write { target, value }; SLOTS],
        }
    }

    /// The writes that are used.
    fn used(&self) -> &[Write]
        ensures { result.now ≡ writes_of self.now }
    {
        &self.writes[..self.count.min(SLOTS)]
    }

    /// The value of the last write to a resource.
    fn last_value(&self, resource: u32) -> Option<i32>
        ensures { result ≡ option_map (λ w. w.value) (find (λ w. resource == w.target) (reverse (writes_of self.now))) }
    {
        self.used()
            .iter()
            .rev()
            .find(|write| resource == u32::from(write.target))
            .map(|write| write.value)
    }

    /// The value of a cell, which is there and holds `value` now, under these changes: the last write to it counts.
    #[tactic(auto, using(crate::proofs::Written::last_of_found))]
    pub(crate) fn overridden(&self, device: u32, resource: u32, value: i32) -> i32
        ensures { result ≡ meant.overridden self.now device resource value }
    {
        if device == self.device {
            self.last_value(resource).unwrap_or(value)
        } else {
            value
        }
    }
}
