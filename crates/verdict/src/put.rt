//! Flows put into a buffer, five bytes each, as far as it reaches.
ghost use Rattle.std.specs.Prelude.{◌≡◌, ◌+◌, ◌^◌, ◌<◌, ◌≤◌, not, ◌&&◌, [], ◌∷◌, filter, slice_set};
ghost use Rattle.meaning.specs.Book.{resources};
ghost use Rattle.meaning.specs.FlowList.{flow, to_target};
ghost use Rattle.meaning.specs.Sets.{has};
ghost use Rattle.levels.specs.Scales.{scaled};
ghost use Rattle.book.specs.Means.{means};
ghost use Rattle.verdict.specs.Kinds.{number};
ghost use Rattle.verdict.specs.Puts.{Put, PutInto};
ghost use Rattle.verdict.specs.Rows as meant;

use super::case::Case;
use super::flow_buffer::FlowBuffer;
use super::row::Row;
use levels::Order;

/// Puts a byte at a place, if that is inside the bytes.
fn put_byte(out: &mut [u8], at: usize, byte: u8)
    ensures { out.new ≡ slice_set out.old at byte }
{
    if at < out.len() {
        out[at] = byte;
    }
}

/// Puts the bytes of one flow at a place.
fn put_bytes(out: &mut [u8], at: usize, row: Row, target: u8, source: u8)
    requires { at < 2 ^ 40 }
    ensures { Put out.old out.new at (at + 5) (flow row.rule row.part (number row.kind) target source ∷ []) }
{
    put_byte(out, at, row.rule);
    put_byte(out, at + 1, row.part);
    put_byte(out, at + 2, row.kind.number());
    put_byte(out, at + 3, target);
    put_byte(out, at + 4, source);
}

impl FlowBuffer<'_> {
    /// Puts one flow.
    fn put(&mut self, row: Row, target: u8, source: u8)
        requires { self.old.at < 2 ^ 40 }
        ensures { PutInto self.old self.new (flow row.rule row.part (number row.kind) target source ∷ []) }
    {
        put_bytes(self.out, self.at, row, target, source);
        self.at += 5;
    }
}

impl Case<'_> {
    /// Whether a source is one of `sources`, and the order does not let its level flow to the target's.
    fn leaks(&self, sources: u32, source: usize, from: u32, to: u32) -> bool
        requires { source < 32 }
        ensures { result ≡ (has sources source && not ((scaled self.now.scale.now).below from to)) }
    {
        (sources >> source) % 2 == 1 && !self.scale.at_or_below(from, to)
    }

    /// Puts the flows to one target from a set of sources, where the order bars them.
    pub(crate) fn put_target(&self, buffer: &mut FlowBuffer<'_>, row: Row, target: u8, sources: u32)
        requires { buffer.old.at < 2 ^ 39 }
        ensures put { PutInto buffer.old buffer.new (filter (meant.leaks (scaled self.now.scale.now) (means self.now.book.now) sources) (to_target (means self.now.book.now) row.rule row.part (number row.kind) target)) }
        ensures bound { buffer.new.at ≤ buffer.old.at + 160 }
    {
        let to = self.book.level_of(usize::from(target));
        for (source, level) in self.book.used_levels().iter().enumerate() {
            if self.leaks(sources, source, u32::from(*level), to) {
                buffer.put(row, target, source as u8);
            }
        }
    }
}
