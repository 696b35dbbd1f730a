//! The updates that the parts of a rule form.
ghost use Rattle.std.specs.Prelude.{◌≡◌, ◌<◌, not, ◌&&◌, [], ◌∷◌, length, take, ◌==◌};
ghost use Rattle.std.specs.List.{range_with_len, flat_map};
ghost use Rattle.meaning.specs.Book.{devices};
ghost use Rattle.meaning.specs.Levels.{Meets};
ghost use Rattle.meaning.specs.Flow as flow;
ghost use Rattle.meaning.specs.Flow.{share};
ghost use Rattle.meaning.specs.Sets.{has};
ghost use Rattle.runs.specs.Discovery as meant;
ghost use Rattle.runs.specs.Discovery.{place, settled};
ghost use Rattle.runs.specs.Update.{evaluated};
ghost use Rattle.book.specs.Means.{code_of, action_means, rule_means, means};
ghost use Rattle.book.specs.Parts.{number};
ghost use Rattle.lanes.specs.Updates.{update_means};
ghost use Rattle.lanes.specs.View.{view};
ghost use Rattle.discovery.specs.Forming.{by_default, by_task_at, by_task_for, by_task, by_rule};
ghost use Rattle.discovery.specs.Plans.{Routed, lane};

use super::firing::Firing;
use super::members::fires;
use book::{CheckedAction, CheckedRule, CheckedSlot, Kind, Part, Rule, SLOTS};
use evaluation::{Changes, Evaluator, Preview};
use hosts::Host;
use lanes::{LaneNumber, Lanes, Update};
use verdict::lands;

/// Whether a device carries a rule.
fn carries(rule: &Rule, device: u8) -> bool
    ensures { result ≡ has rule.now.carriers device }
{
    let carriers = u32::from(rule.carriers);
    device < 32 && (carriers >> device) % 2 == 1
}

impl<H: Host> Firing<'_, '_, H> {
    /// The lane of a part.
    fn lane(&self, part: Part) -> LaneNumber
        ensures { result.number ≡ lane self.now.route part }
    {
        let number = match part {
            Part::Default => self.route.default_lane,
            Part::Task => self.route.task_lane,
        };
        LaneNumber { number }
    }

    /// The values of an action's assignments, for a receiver.
    fn values(&self, action: &CheckedAction<'_>, receiver: u8) -> [i32; SLOTS]
        ensures { take (length (action_means (code_of action.now.book.now) action.now.action.now)) result ≡ evaluated (H.Host.table self.now.host.now) self.now.device receiver (action_means (code_of action.now.book.now) action.now.action.now) }
    {
        let evaluator = Evaluator {
            preview: Preview {
                host: self.host,
                changes: &Changes::none(),
            },
            own: u32::from(self.device),
            receiver: u32::from(receiver),
        };
        let mut values = [0; SLOTS];
        for (place, slot) in action.action.used().iter().enumerate() {
            let slot = CheckedSlot {
                book: action.book,
                slot,
            };
            let code = slot.value();
            values[place] = evaluator.value(code.bytes);
        }
        values
    }

    /// The update that a part of the rule forms, for a receiver.
    fn update(&self, part: Part, receiver: u8) -> Update
        ensures { update_means result ≡ meant.form (means self.now.rule.of.book.now) (H.Host.table self.now.host.now) self.now.device (place self.now.rule.number (number part) receiver) }
    {
        let action = self.rule.of.action(part);
        Update {
            device: receiver,
            rule: self.rule.number,
            part,
            count: action.action.used().len() as u8,
            values: self.values(&action, receiver),
        }
    }

    /// A part of the rule is evaluated, and its update goes to the end of its lane.
    fn form(&self, lanes: &mut Lanes, part: Part, receiver: u8)
        ensures { (M : Meets) → Routed M (means self.now.rule.of.book.now) self.now.rule.number self.now.route → view lanes.new ≡ settled M (means self.now.rule.of.book.now) (view lanes.old) (meant.form (means self.now.rule.of.book.now) (H.Host.table self.now.host.now) self.now.device (place self.now.rule.number (number part) receiver) ∷ []) }
    {
        lanes.arrive(self.lane(part), self.update(part, receiver));
    }

    /// What the default part forms.
    fn by_default(&self, lanes: &mut Lanes)
        ensures { (M : Meets) → Routed M (means self.now.rule.of.book.now) self.now.rule.number self.now.route → view lanes.new ≡ settled M (means self.now.rule.of.book.now) (view lanes.old) (by_default (means self.now.rule.of.book.now) (H.Host.table self.now.host.now) self.now.rule.number self.now.device) }
    {
        if !self.rule.of.rule.defaults.used().is_empty() {
            self.form(lanes, Part::Default, self.device);
        }
    }

    /// What the task forms for a receiver: an update, where the condition holds there.
    fn by_task_at(&self, lanes: &mut Lanes, receiver: u8)
        ensures { (M : Meets) → Routed M (means self.now.rule.of.book.now) self.now.rule.number self.now.route → view lanes.new ≡ settled M (means self.now.rule.of.book.now) (view lanes.old) (by_task_at (means self.now.rule.of.book.now) (H.Host.table self.now.host.now) self.now.rule.number self.now.device receiver) }
    {
        let evaluator = Evaluator {
            preview: Preview {
                host: self.host,
                changes: &Changes::none(),
            },
            own: u32::from(self.device),
            receiver: u32::from(receiver),
        };
        if evaluator.holds(self.rule.of.condition().bytes) {
            self.form(lanes, Part::Task, receiver);
        }
    }

    /// Whether a remote task goes to a receiver: another device, where it can land.
    fn reaches(&self, receiver: u8) -> bool
        requires { receiver < 16 }
        ensures { result ≡ (not (receiver == self.now.device) && flow.lands (means self.now.rule.of.book.now) (rule_means (code_of self.now.rule.of.book.now) self.now.rule.of.rule.now) 1 receiver) }
    {
        let CheckedRule { book, rule } = self.rule.of;
        receiver != self.device && lands(book, rule, Part::Task, self.route.received, receiver)
    }

    /// What a remote task forms for a receiver, if that is another device where the task can land.
    fn by_task_for(&self, lanes: &mut Lanes, receiver: u8)
        requires { receiver < 16 }
        ensures { (M : Meets) → Routed M (means self.now.rule.of.book.now) self.now.rule.number self.now.route → view lanes.new ≡ settled M (means self.now.rule.of.book.now) (view lanes.old) (by_task_for (means self.now.rule.of.book.now) (H.Host.table self.now.host.now) self.now.rule.number self.now.device receiver) }
    {
        if self.reaches(receiver) {
            self.by_task_at(lanes, receiver);
        }
    }

    /// What a remote task forms: for every other device, ascending.
    fn by_remote_task(&self, lanes: &mut Lanes)
        ensures { (M : Meets) → Routed M (means self.now.rule.of.book.now) self.now.rule.number self.now.route → view lanes.new ≡ settled M (means self.now.rule.of.book.now) (view lanes.old) (flat_map (by_task_for (means self.now.rule.of.book.now) (H.Host.table self.now.host.now) self.now.rule.number self.now.device) (range_with_len 0 (devices (means self.now.rule.of.book.now)))) }
    {
        // The number is all that is wanted of a device.
        for receiver in 0..self.rule.of.book.used_cells().len() {
            self.by_task_for(lanes, receiver as u8);
        }
    }

    /// What the task forms.
    fn by_task(&self, lanes: &mut Lanes)
        ensures { (M : Meets) → Routed M (means self.now.rule.of.book.now) self.now.rule.number self.now.route → view lanes.new ≡ settled M (means self.now.rule.of.book.now) (view lanes.old) (by_task (means self.now.rule.of.book.now) (H.Host.table self.now.host.now) self.now.rule.number self.now.device) }
    {
        if self.rule.of.rule.tasks.used().is_empty() {
            return;
        }
        match self.rule.of.rule.kind {
            Kind::Local => self.by_task_at(lanes, self.device),
            Kind::Remote => self.by_remote_task(lanes),
        }
    }

    /// Whether a change fires the rule: the device carries it, and an event of it changed.
    fn is_fired(&self, changed: u32) -> bool
        ensures { result ≡ (has self.now.rule.of.rule.now.carriers self.now.device && share self.now.rule.of.rule.now.events changed) }
    {
        carries(self.rule.of.rule, self.device) && fires(self.rule.of.rule.events, changed)
    }

    /// What the rule forms at a change, if it is fired.
    pub fn by_rule(&self, lanes: &mut Lanes, changed: u32)
        ensures { (M : Meets) → Routed M (means self.now.rule.of.book.now) self.now.rule.number self.now.route → view lanes.new ≡ settled M (means self.now.rule.of.book.now) (view lanes.old) (by_rule (means self.now.rule.of.book.now) (H.Host.table self.now.host.now) self.now.device changed self.now.rule.number) }
    {
        if self.is_fired(changed) {
            self.by_default(lanes);
            self.by_task(lanes);
        }
    }
}
