//! Files, by how far they are checked.
ghost use Rattle.std.specs.Prelude.{◌≡◌, ◌+◌, Ok};
ghost use Rattle.meaning.specs.Bytes.{Bytes, part};
ghost use Rattle.meaning.specs.Layout.{code_from};
ghost use Rattle.meaning.specs.Reading.{fields_checked, expressions_checked, cells_checked};
ghost use Rattle.book.specs.Plan.{plan, code_in, Framed};

use super::bytes::piece;
use super::layout::Layout;
use super::rule::Span;

/// A file whose header is right, and where its sections lie.
#[derive(Clone, Copy)]
pub(crate) struct File<'a> {
    pub bytes: &'a [u8],
    pub layout: Layout,
    ghost fits: { Bytes bytes.now },
    ghost framed: { Framed bytes.now layout },
}

/// A file whose fields and expressions are right too.
#[derive(Clone, Copy)]
pub(crate) struct Parsed<'a> {
    pub file: File<'a>,
    ghost fields: { fields_checked file.bytes.now (plan file.layout) ≡ Ok tt },
    ghost expressions: { expressions_checked file.bytes.now (plan file.layout) ≡ Ok tt },
}

/// A file that is right: its devices have the cells that its rules and clauses need.
#[derive(Clone, Copy)]
pub(crate) struct Right<'a> {
    pub parsed: Parsed<'a>,
    ghost cells: { cells_checked parsed.file.bytes.now (plan parsed.file.layout) ≡ Ok tt },
}

impl File<'_> {
    /// The bytes of the expression in a span, or those of them that there are.
    pub fn code(&self, span: Span) -> &[u8]
        ensures in_file { result.now ≡ part self.now.bytes.now (code_from (plan self.now.layout) + span.from) span.size }
        ensures in_code { result.now ≡ part (code_in self.now.bytes.now self.now.layout) span.from span.size }
    {
        let from = self.layout.code_from() + usize::from(span.from);
        piece(self.bytes, from, usize::from(span.size))
    }
}
