//! The plan of a book under an order.
ghost use Rattle.std.specs.Prelude.{◌≡◌, ℕ, ◌<◌, length, slice_index, slice_index_or};
ghost use Rattle.meaning.specs.Expression as meant;
ghost use Rattle.runs.specs.Clauses.{clause_at};
ghost use Rattle.runs.specs.Update.{level_of};
ghost use Rattle.levels.specs.Scales.{scaled_meets};
ghost use Rattle.book.specs.Means.{code_of, action_means, rule_means, means};
ghost use Rattle.discovery.specs.Plans.{RouteOf, Routed, Laned, no_route, Ready, Planned};

use super::accepted::AcceptedBook;
use super::meeting::meet_of;
use super::plan::{Plan, Route};
use book::{CLAUSES, CheckedAction, CheckedBook, CheckedClause, CheckedRule, Part, RULES, Side};
use verdict::{received, targets};

const NO_ROUTE: Route = Route {
    default_lane: 0,
    task_lane: 0,
    received: 0,
};

/// What each clause reads.
fn clause_reads(book: &CheckedBook<'_>) -> [u32; CLAUSES]
    ensures { (j : ℕ) → j < length (means book.now.book.now).clauses → slice_index result j ≡ meant.reads 0 (clause_at (means book.now.book.now) j).test }
{
    let book = book.book;
    let mut sets = [0; CLAUSES];
    for (number, clause) in book.used_clauses().iter().enumerate() {
        let clause = CheckedClause { book, clause };
        sets[number] = clause.test().reads(0, Side::Own);
    }
    sets
}

impl AcceptedBook<'_> {
    /// The lane of an action: the meet of its targets' levels, or 0 where it has none.
    fn lane(&self, action: &CheckedAction<'_>) -> u32
        requires { action.now.book.now ≡ self.now.book.now }
        ensures small { result < 16 }
        ensures level { result ≡ level_of (scaled_meets self.now.scale.now) (means self.now.book.now) (action_means (code_of self.now.book.now) action.now.action.now) }
    {
        let set = targets(0, action);
        if set == 0 {
            return 0;
        }
        meet_of(self.book, self.scale, set)
    }

    /// The route of a rule.
    fn route(&self, rule: &CheckedRule<'_>) -> Route
        requires { rule.now.book.now ≡ self.now.book.now }
        ensures lanes { Laned result }
        ensures route { RouteOf (scaled_meets self.now.scale.now) (means self.now.book.now) (rule_means (code_of self.now.book.now) rule.now.rule.now) result }
    {
        Route {
            default_lane: self.lane(&rule.action(Part::Default)),
            task_lane: self.lane(&rule.action(Part::Task)),
            received: received(rule),
        }
    }

    /// The routes of all rules.
    fn routes(&self) -> [Route; RULES]
        ensures { (i : ℕ) → i < length (means self.now.book.now).rules → Routed (scaled_meets self.now.scale.now) (means self.now.book.now) i (slice_index_or result i no_route) × Laned (slice_index_or result i no_route) }
    {
        let mut routes = [NO_ROUTE; RULES];
        for (number, rule) in self.book.used_rules().iter().enumerate() {
            let book = self.book;
            routes[number] = self.route(&CheckedRule { book, rule });
        }
        routes
    }

    /// The plan of the book under the order.
    pub fn plan(&self) -> Plan
        ensures plan { Planned (scaled_meets self.now.scale.now) (means self.now.book.now) result }
        ensures ready { Ready (means self.now.book.now) result }
    {
        let book = CheckedBook { book: self.book };
        Plan {
            routes: self.routes(),
            reads: clause_reads(&book),
        }
    }
}
