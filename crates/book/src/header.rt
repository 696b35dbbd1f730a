//! The header: first bytes, counts, and the six pairs that name the sections.
ghost use Rattle.std.specs.Prelude.{◌≡◌, ◌*◌, ◌^◌, ◌<◌, ◌≤◌, ◌&&◌, length, nat_le, Ok, Err, MatchResult};
ghost use Rattle.meaning.specs.Bytes.{byte_at};
ghost use Rattle.meaning.specs.Checks.{book_fault, require};
ghost use Rattle.meaning.specs.Layout.{layout, ones_at};
ghost use Rattle.meaning.specs.Reading.{first_checked, counts_checked, section_right, sections_checked, checked};
ghost use Rattle.fault.specs.declared.fault.BookCause.TheVariants.{Frame, Count};
ghost use Rattle.book.specs.Plan.{sized, Counted, Framed};

use super::book::{CLAUSES, DEVICES, RESOURCES, RULES};
use super::bytes::{byte, four, two};
use super::layout::Layout;
use super::offsets::{CLAUSE, HEADER, MASK, RULE, START};
use super::refusal::refusal;
use fault::{BookCause, Fault};

/// The first bytes of a book file: `ABU1`.
const FIRST: u32 = 0x4142_5531;

/// The file has a header, which begins with the first bytes of a book file.
fn first(bytes: &[u8]) -> Result<(), Fault>
    ensures { result ≡ first_checked bytes.now }
{
    if bytes.len() < HEADER {
        return Err(refusal(BookCause::Frame, bytes.len(), 0));
    }
    if four(bytes, 0) != FIRST {
        return Err(refusal(BookCause::Frame, 0, 0));
    }
    Ok(())
}

/// The count at a place of the header, which is from `least` to `most`.
fn count(bytes: &[u8], at: usize, least: usize, most: usize) -> Result<usize, Fault>
    requires { at < 32 }
    ensures { result ≡ require (nat_le least (byte_at bytes.now at) && nat_le (byte_at bytes.now at) most) (book_fault Count at 0) (Ok (byte_at bytes.now at)) }
{
    let count = usize::from(byte(bytes, at));
    if count < least || count > most {
        return Err(refusal(BookCause::Count, at, 0));
    }
    Ok(count)
}

/// How many ones the masks of some devices have together.
fn ones(bytes: &[u8], from: usize, devices: usize) -> usize
    requires place { from ≤ 64 }
    requires few { devices ≤ 16 }
    ensures value { result ≡ ones_at bytes.now from devices }
    ensures bound { result ≤ 32 * devices }
{
    let ones: u32 = (0..devices)
        .map(|d| four(bytes, from + MASK * d).count_ones())
        .sum();
    ones as usize
}

/// The counts of a book, and of its cells and code.
fn counts(bytes: &[u8]) -> Result<Layout, Fault>
    ensures { MatchResult result (λ l. Counted bytes.now l) (λ f. counts_checked (layout bytes.now) ≡ Err f) }
{
    let devices = count(bytes, 4, 1, DEVICES)?;
    let resources = count(bytes, 5, 1, RESOURCES)?;
    let rules = count(bytes, 6, 0, RULES)?;
    let clauses = count(bytes, 7, 0, CLAUSES)?;
    Ok(Layout {
        devices,
        resources,
        rules,
        clauses,
        cells: ones(bytes, HEADER + resources, devices),
        room: two(bytes, 30),
    })
}

/// The pair at `at` says where a section has to begin and how long it has to be, and the section ends inside the file.
fn section(bytes: &[u8], at: usize, from: usize, size: usize) -> Result<(), Fault>
    requires place { at < 32 }
    requires start { from < 2 ^ 32 }
    ensures { result ≡ require (section_right bytes.now at from size) (book_fault Frame at 0) (Ok tt) }
{
    let inside = from <= bytes.len() && size <= bytes.len() - from;
    if inside && usize::from(two(bytes, at)) == from && usize::from(two(bytes, at + 2)) == size {
        return Ok(());
    }
    Err(refusal(BookCause::Frame, at, 0))
}

/// The six sections in their order, which begin where the last ended; the code ends the file.
fn sections(bytes: &[u8], layout: &Layout) -> Result<(), Fault>
    ensures { result ≡ sections_checked bytes.now (sized (length bytes.now) layout.now) }
{
    let code_from = layout.code_from();
    section(bytes, 8, HEADER, layout.resources)?;
    section(bytes, 12, layout.cells_from(), MASK * layout.devices)?;
    section(bytes, 16, layout.starts_from(), START * layout.cells)?;
    section(bytes, 20, layout.rules_from(), RULE * layout.rules)?;
    section(bytes, 24, layout.clauses_from(), CLAUSE * layout.clauses)?;
    section(bytes, 28, code_from, bytes.len().saturating_sub(code_from))
}

/// The layout of a file whose header is right.
#[tactic(auto, unfolding(meaning::specs::Reading::checked))]
pub(crate) fn header(bytes: &[u8]) -> Result<Layout, Fault>
    ensures { MatchResult result (λ l. Framed bytes.now l) (λ f. checked bytes.now (layout bytes.now) ≡ Err f) }
{
    first(bytes)?;
    let layout = counts(bytes)?;
    sections(bytes, &layout)?;
    Ok(layout)
}
