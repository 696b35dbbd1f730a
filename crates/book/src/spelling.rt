//! Values that the bytes of a file spell.
ghost use Rattle.std.specs.Prelude.{◌≡◌, ℕ, ◌+◌, List, drop};
ghost use Rattle.meaning.specs.Bytes.{byte_at, two_at, four_at};
ghost use Rattle.meaning.specs.Parsed.{start_at};
ghost use Rattle.book.specs.Spelling.{kind_spelt, span_spelt, slot_spelt, slots_spelt, rule_spelt, clause_spelt};
ghost use Rattle.book.specs.Shifted.{byte_shifted, two_shifted, four_shifted, start_shifted, kind_shifted, span_shifted, slot_shifted, slots_shifted, rule_shifted, clause_shifted};

use super::bytes::{byte, rest};
use super::rule::{Action, Clause, Kind, Rule, SLOTS, Slot, Span};

/// A value that bytes spell.
pub trait Spelt: Copy {
    ghost spelt: { List ℕ → ℕ → Self };

    /// The value that the first bytes spell.
    fn spelt_in(bytes: &[u8]) -> Self
        ensures { result ≡ spelt bytes.now 0 };

    ghost shifted: { (bs : List ℕ) (at k : ℕ) → spelt (drop at bs) k ≡ spelt bs (at + k) };
}

/// The value that the bytes from a place on spell.
pub(crate) fn spelt_at<T: Spelt>(bytes: &[u8], at: usize) -> T
    ensures { result ≡ T.spelt bytes.now at }
{
    T::spelt_in(rest(bytes, at))
}

impl Spelt for u8 {
    ghost spelt = { byte_at };

    ghost shifted = { byte_shifted };

    fn spelt_in(bytes: &[u8]) -> u8 {
        byte(bytes, 0)
    }
}

impl Spelt for u16 {
    ghost spelt = { two_at };

    ghost shifted = { two_shifted };

    fn spelt_in(bytes: &[u8]) -> u16 {
        u16::from_be_bytes([byte(bytes, 0), byte(bytes, 1)])
    }
}

impl Spelt for u32 {
    ghost spelt = { four_at };

    ghost shifted = { four_shifted };

    fn spelt_in(bytes: &[u8]) -> u32 {
        u32::from_be_bytes([
            byte(bytes, 0),
            byte(bytes, 1),
            byte(bytes, 2),
            byte(bytes, 3),
        ])
    }
}

impl Spelt for i32 {
    ghost spelt = { start_at };

    ghost shifted = { start_shifted };

    fn spelt_in(bytes: &[u8]) -> i32 {
        u32::spelt_in(bytes).cast_signed()
    }
}

impl Spelt for Kind {
    ghost spelt = { kind_spelt };

    ghost shifted = { kind_shifted };

    fn spelt_in(bytes: &[u8]) -> Kind {
        if byte(bytes, 0) == 1 {
            Kind::Remote
        } else {
            Kind::Local
        }
    }
}

impl Spelt for Span {
    ghost spelt = { span_spelt };

    ghost shifted = { span_shifted };

    fn spelt_in(bytes: &[u8]) -> Span {
        Span {
            from: spelt_at(bytes, 0),
            size: spelt_at(bytes, 2),
        }
    }
}

impl Spelt for Slot {
    ghost spelt = { slot_spelt };

    ghost shifted = { slot_shifted };

    fn spelt_in(bytes: &[u8]) -> Slot {
        Slot {
            target: spelt_at(bytes, 0),
            value: spelt_at(bytes, 1),
        }
    }
}

impl Spelt for [Slot; SLOTS] {
    ghost spelt = { slots_spelt };

    ghost shifted = { slots_shifted };

    fn spelt_in(bytes: &[u8]) -> [Slot; SLOTS] {
        [
            spelt_at(bytes, 0),
            spelt_at(bytes, 5),
            spelt_at(bytes, 10),
            spelt_at(bytes, 15),
        ]
    }
}

impl Spelt for Rule {
    ghost spelt = { rule_spelt };

    ghost shifted = { rule_shifted };

    fn spelt_in(bytes: &[u8]) -> Rule {
        Rule {
            carriers: spelt_at(bytes, 0),
            events: spelt_at(bytes, 2),
            kind: spelt_at(bytes, 6),
            condition: spelt_at(bytes, 9),
            defaults: Action {
                count: spelt_at(bytes, 7),
                slots: spelt_at(bytes, 13),
            },
            tasks: Action {
                count: spelt_at(bytes, 8),
                slots: spelt_at(bytes, 33),
            },
        }
    }
}

impl Spelt for Clause {
    ghost spelt = { clause_spelt };

    ghost shifted = { clause_shifted };

    fn spelt_in(bytes: &[u8]) -> Clause {
        Clause {
            device: spelt_at(bytes, 0),
            test: spelt_at(bytes, 1),
        }
    }
}
