//! Which clauses a change would make false.
ghost use Rattle.std.specs.Prelude.{◌≡◌, not, ◌&&◌, ◌==◌};
ghost use Rattle.meaning.specs.Flow.{share};
ghost use Rattle.runs.specs.Clauses as meant;
ghost use Rattle.runs.specs.Clauses.{concerns};
ghost use Rattle.book.specs.Means.{code_of, clause_means, means};
ghost use Rattle.evaluation.specs.Posted.{posted};

use super::planned::PlannedBook;
use book::CheckedClause;
use evaluation::{Evaluator, Preview};
use hosts::Host;

/// Whether a clause is false in a preview.
fn is_false<H: Host>(preview: &Preview<'_, H>, clause: &CheckedClause<'_>) -> bool
    ensures { result ≡ not (meant.holds (posted preview.now.changes.now (H.Host.table preview.now.host.now)) (clause_means (code_of clause.now.book.now) clause.now.clause.now)) }
{
    let device = u32::from(clause.clause.device);
    let evaluator = Evaluator {
        preview: *preview,
        own: device,
        receiver: device,
    };
    !evaluator.holds(clause.test().bytes)
}

impl PlannedBook<'_> {
    /// The first clause of a device that reads one of some resources and would be false once the changes of a preview are written.
    pub fn failing<H: Host>(&self, preview: &Preview<'_, H>, device: u8, set: u32) -> Option<u32>
        ensures { result ≡ meant.failing (means self.now.book.now) (posted preview.now.changes.now (H.Host.table preview.now.host.now)) (concerns device set) }
    {
        let reads = &self.plan.reads;
        for (number, clause) in self.book.used_clauses().iter().enumerate() {
            let book = self.book;
            let clause = CheckedClause { book, clause };
            if is_broken(preview, &clause, reads[number], device, set) {
                return Some(number as u32);
            }
        }
        None
    }
}

/// Whether a clause is one of a device, reads one of some resources, and is false in a preview.
fn is_broken<H: Host>(
    preview: &Preview<'_, H>,
    clause: &CheckedClause<'_>,
    reads: u32,
    device: u8,
    set: u32,
) -> bool
    ensures { result ≡ ((clause.now.clause.now.device == device && share reads set) && not (meant.holds (posted preview.now.changes.now (H.Host.table preview.now.host.now)) (clause_means (code_of clause.now.book.now) clause.now.clause.now))) }
{
    clause.clause.device == device && reads & set != 0 && is_false(preview, clause)
}
