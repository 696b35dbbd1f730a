//! What an order of security levels offers, and the laws that each one keeps.
ghost use Rattle.std.specs.Prelude.{◌≡◌};
ghost use Rattle.meaning.specs.Levels as meant;
ghost use Rattle.meaning.specs.Levels.{Meets, Lawful, Meeting};

/// An order of 1 to 16 levels, numbered from 0, with greatest lower bounds.
pub trait Order {
    ghost ranks: { Self → meant.Order };

    ghost meets: { Self → Meets };

    /// How many levels there are.
    fn count(&self) -> u32
        ensures { result ≡ (ranks self.now).count };

    /// Whether `a` is at or below `b`. A number that is no level compares with nothing.
    fn at_or_below(&self, a: u32, b: u32) -> bool
        ensures { result ≡ (ranks self.now).below a b };

    /// The greatest lower bound of two levels, or 0 where one is no level.
    fn meet(&self, a: u32, b: u32) -> u32
        ensures { result ≡ (meets self.now).meet a b };

    ghost lawful: { (o : Self) → Lawful (ranks o) };

    ghost meeting: { (o : Self) → Meeting (ranks o) (meets o) };
}
