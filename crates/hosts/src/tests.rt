//! What lent words hold after writes through the trait, and both hosts side by side.
ghost use Rattle.std.specs.Prelude.{◌≡◌, pos};
ghost use Rattle.runs.specs.Table as meant;
ghost use Rattle.book.specs.Means.{means};
ghost use Rattle.hosts.specs.Frames.{past_cells};
ghost use Rattle.hosts.specs.Tables.{in_words};

use super::host::Host;
use super::table_host::TableHost;
use super::word_host::WordHost;
use book::{Draft, read};
use levels::Ladder;
use std::test::Fail;
use verdict::{Accepted, judge};

/// A book of three cells: the device 0 has the resources 0 and 2, and the device 1 has the resource 1.
const FILE: &[u8] =
    b"ABU1\x02\x03\0\0\0\x20\0\x03\0\x23\0\x08\0\x2b\0\x0c\0\x37\0\0\0\x37\0\0\0\x37\0\0\0\0\0\0\0\0\x05\0\0\0\x02\0\0\0\x0a\xff\xff\xff\xff\0\0\0\x1e";

fn three_cells(order: Ladder) -> Accepted<Ladder> {
    let mut draft = Draft::smallest();
    let _ = read(FILE, &mut draft);
    judge(draft, order)
}

/// Sets two cells of any host: the last two of the book.
fn set_two<H: Host>(host: &mut H)
    ensures written { H.Host.table host.new ≡ meant.write (meant.write (H.Host.table host.old) 0 2 (pos 7)) 1 1 (pos 9) }
    ensures kept { H.Host.frame host.new ≡ H.Host.frame host.old }
{
    host.write(0, 2, 7);
    host.write(1, 1, 9);
}

/// Lends words to a host that is written to: what they hold then is known.
fn lend<O>(accepted: &Accepted<O>, words: &mut [i32])
    ensures cells { in_words (means accepted.now.draft.book).cells words.new ≡ meant.write (meant.write (in_words (means accepted.now.draft.book).cells words.old) 0 2 (pos 7)) 1 1 (pos 9) }
    ensures past { past_cells (means accepted.now.draft.book).cells words.new ≡ past_cells (means accepted.now.draft.book).cells words.old }
{
    let mut host = WordHost::new(accepted, words);
    set_two(&mut host);
}

#[test]
fn hosts_agree(rt: HostRuntime) -> Result<(), Fail> {
    let Ok(order) = Ladder::new(1) else {
        return Err(Fail::new("no ladder"));
    };
    let accepted = three_cells(order);
    let mut words = [10, -1, 30, 4];
    lend(&accepted, &mut words);
    assert_eq!(rt; words, [10, 7, 9, 4]);
    let mut table = TableHost::new(&accepted);
    set_two(&mut table);
    let lent = WordHost::new(&accepted, &mut words);
    for at in 0..561u32 {
        assert_eq!(rt; table.read(at / 33, at % 33), lent.read(at / 33, at % 33));
    }
    Ok(())
}
