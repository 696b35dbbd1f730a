//! Members of a set of resources, walked from the lowest on.
ghost use Rattle.std.specs.Prelude.{◌≡◌};
ghost use Rattle.std.specs.Iterator.{YieldsFirst, item_count};
ghost use Rattle.meaning.specs.Flow.{share};
ghost use Rattle.discovery.specs.Members.{members_of};

/// The members of a set that are still to come, from the lowest on.
#[derive(Drop)]
pub(crate) struct Members {
    left: u32,
}

impl Members {
    /// The members of a set, from the lowest on.
    pub(crate) fn of(set: u32) -> Members
        ensures { result.left ≡ set }
    {
        Members { left: set }
    }
}

impl Iterator for Members {
    type Item = u32;

    ghost next_gives = { YieldsFirst (λ walk. members_of walk.left) };

    ghost remaining = { item_count (λ walk. members_of walk.left) };

    #[tactic(auto, using(crate::proofs::Walks::none_left, crate::proofs::Walks::lowest_first))]
    fn next(&mut self) -> Option<u32> {
        if self.left == 0 {
            return None;
        }
        let lowest = self.left.trailing_zeros();
        self.left ^= 1 << lowest;
        Some(lowest)
    }
}

/// Whether an event is among what changed.
#[tactic(auto, using(crate::proofs::Walks::member_small))]
pub fn fires(events: u32, changed: u32) -> bool
    ensures { result ≡ share events changed }
{
    Members::of(events).any(|event| (changed >> event) % 2 == 1)
}
