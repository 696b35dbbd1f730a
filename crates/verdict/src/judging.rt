//! The list of forbidden flows, and judging.
ghost use Rattle.std.specs.Prelude.{◌≡◌, is_ok, if◌then◌else◌};
ghost use Rattle.meaning.specs.Book as meant;
ghost use Rattle.levels.specs.Scales.{scaled};
ghost use Rattle.book.specs.Means.{means};
ghost use Rattle.verdict.specs.Verdicts.{judged, Listing, Judgement};

use super::accepted::Accepted;
use super::levels_known::levels_known;
use super::listing::put_flows;
use book::{Book, CheckedBook, Draft};
use fault::{CallCause, Fault, Layer, OrderCause};
use levels::{Order, Scale, written_out};

/// The bytes of a flow in the list: rule, part, kind, target and source.
const FLOW: usize = 5;

/// Writes the list of a draft's forbidden flows under an order, five bytes a flow, ascending, and answers its length.
pub fn flows<O: Order>(draft: &Draft, order: &O, out: &mut [u8]) -> Result<usize, Fault>
    ensures { Listing (O.Order.ranks order.now) (means draft.now.book) out.old out.new result }
{
    let book = draft.checked();
    let scale = written_out(order);
    levels_known(&book, &scale)?;
    let mut nothing = [0; 0];
    let needed = put_flows(&scale, &book, &mut nothing);
    if needed > out.len() {
        return Err(Fault {
            layer: Layer::Call(CallCause::Buffer),
            place: (needed as u32, out.len() as u32),
        });
    }
    Ok(put_flows(&scale, &book, out))
}

/// The verdict on a book under an order that is written out.
fn verdict(draft: &Draft, scale: &Scale) -> Result<(), Fault>
    ensures { result ≡ judged (scaled scale.now) (means draft.now.book) }
{
    let book = draft.checked();
    levels_known(&book, scale)?;
    let mut first = [0; FLOW];
    if put_flows(scale, &book, &mut first) > 0 {
        return Err(Fault {
            layer: Layer::Order(OrderCause::Flow),
            place: (u32::from(first[0]), u32::from(first[2])),
        });
    }
    Ok(())
}

/// Whether a draft may be judged under an order: its levels are the order's, and no flow is forbidden.
pub fn may_judge<O: Order>(draft: &Draft, order: &O) -> Result<(), Fault>
    ensures { Judgement (O.Order.ranks order.now) (means draft.now.book) result }
{
    verdict(draft, &written_out(order))
}

/// Judges a draft under an order. Where the look would refuse, the smallest book is accepted in its place.
pub fn judge<O: Order>(draft: Draft, order: O) -> Accepted<O>
    ensures book { means result.draft.book ≡ (if is_ok (judged (O.Order.ranks order) (means draft.book)) then means draft.book else meant.smallest) }
    ensures order { result.order ≡ order }
    ensures scale { scaled result.scale ≡ O.Order.ranks order }
{
    let scale = written_out(&order);
    let mut draft = draft;
    if verdict(&draft, &scale).is_err() {
        draft = Draft::smallest();
    }
    Accepted {
        draft,
        order,
        scale,
    }
}

impl<O> Accepted<O> {
    /// The accepted book.
    pub fn book(&self) -> &Book
        ensures { result.now ≡ self.now.draft.book }
    {
        self.draft.book()
    }

    /// The accepted book, which is well formed.
    pub fn checked(&self) -> CheckedBook<'_>
        ensures { result.book.now ≡ self.now.draft.book }
    {
        self.draft.checked()
    }
}
