//! A rule that may be fired on a device.
ghost use Rattle.std.specs.Prelude.{◌≡◌};
ghost use Rattle.meaning.specs.Flow.{received};
ghost use Rattle.book.specs.Means.{code_of, rule_means};
ghost use Rattle.discovery.specs.Plans.{Laned};

use super::plan::Route;
use book::NumberedRule;

/// A rule with its route, on a device of a host.
#[derive(Drop)]
pub(crate) struct Firing<'a, 'b, H> {
    pub host: &'a H,
    pub rule: NumberedRule<'b>,
    pub route: Route,
    pub device: u8,
    ghost known: { route.received ≡ received (rule_means (code_of rule.of.book.now) rule.of.rule.now) },
    ghost laned: { Laned route },
}
