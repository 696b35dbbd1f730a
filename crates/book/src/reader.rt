//! Reading a book file into a draft.
ghost use Rattle.std.specs.Prelude.{◌≡◌, false, is_ok};
ghost use Rattle.book.specs.Means.{means};
ghost use Rattle.book.specs.Reads.{Read};

use super::draft::Draft;
use super::file::{File, Parsed, Right};
use super::header::header;
use fault::Fault;

/// Reads a book file into a draft, or says what is wrong and leaves the draft as it was.
pub fn read(bytes: &[u8], draft: &mut Draft) -> Result<(), Fault>
    ensures read { Read bytes.now (means draft.old.book) (means draft.new.book) result }
    ensures kept { is_ok result ≡ false → draft.new ≡ draft.old }
{
    let layout = header(bytes)?;
    let file = File { bytes, layout };
    file.fields()?;
    file.expressions()?;
    let parsed = Parsed { file };
    parsed.cells()?;
    let right = Right { parsed };
    right.fill(&mut draft.book);
    Ok(())
}
