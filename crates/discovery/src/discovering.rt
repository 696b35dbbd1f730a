//! Discovery: what a change on a device forms, rule by rule.
ghost use Rattle.std.specs.Prelude.{◌≡◌};
ghost use Rattle.meaning.specs.Levels.{Meets};
ghost use Rattle.runs.specs.Discovery.{formed, settled};
ghost use Rattle.book.specs.Means.{means};
ghost use Rattle.lanes.specs.View.{view};
ghost use Rattle.discovery.specs.Plans.{Planned};

use super::firing::Firing;
use super::planned::PlannedBook;
use book::{CheckedRule, NumberedRule};
use hosts::Host;
use lanes::Lanes;

impl PlannedBook<'_> {
    /// A change of some resources on a device, which the host holds already, forms updates, and each goes to its lane.
    pub fn discover<H: Host>(&self, host: &H, lanes: &mut Lanes, device: u8, changed: u32)
        ensures { (M : Meets) → Planned M (means self.now.book.now) self.now.plan.now → view lanes.new ≡ settled M (means self.now.book.now) (view lanes.old) (formed (means self.now.book.now) (H.Host.table host.now) device changed) }
    {
        let routes = &self.plan.routes;
        for (number, rule) in self.book.used_rules().iter().enumerate() {
            let book = self.book;
            let of = CheckedRule { book, rule };
            let firing = Firing {
                host,
                rule: NumberedRule {
                    of,
                    number: number as u8,
                },
                route: routes[number],
                device,
            };
            firing.by_rule(lanes, changed);
        }
    }
}
