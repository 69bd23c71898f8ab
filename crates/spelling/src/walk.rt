// One walk along the layout of a row, whatever the spelling.
ghost use Rattle.std.specs.Prelude.{◌≡◌, ℕ, ◌≤◌, true, length, drop, Some, nat_lt};
ghost use Rattle.layout.specs.Layout.{wanted};
ghost use Rattle.layout.specs.Follow.{todo};
ghost use Rattle.layout.specs.Source.{Pulled};
ghost use Rattle.spelling.specs.Walk.{left};
ghost use Rattle.spelling.specs.Check.{Checks, Found, Steps, Walks};

use crate::terms::Spelling;
use crate::text::tail;
use layout::cursor::Cursor;
use layout::records::Parts;
use layout::stage::Progress;
use telegram::item::{Item, Placed, Want};
use telegram::refusal::{Reason, Refusal};
use telegram::row::Row;

// The item that stands at a place, and how many bytes it takes.
fn found_at<'b, S: Spelling>(
    first: bool,
    want: Want,
    text: &'b [u8],
    place: usize,
) -> Result<(Item<'b>, usize), Refusal>
    ensures { Found place (drop place text.now) (S.Spelling.finds first want (drop place text.now)) result }
{
    S::find(first, want, tail(text, place)).map_err(|fault| Reason::from(fault).at(place))
}

// The item at a cursor, and the cursor behind it. A refusal tells a place of the whole input, so the input goes along with the place; that the place lies within keeps the sum below in bounds.
fn step<'b, S: Spelling>(
    text: &'b [u8],
    at: Cursor,
    want: Want,
) -> Result<(Placed<Item<'b>>, Cursor), Refusal>
    requires inside { at.place ≤ length text.now }
    requires asked { Some want ≡ wanted (todo at.progress.stage) }
    ensures { Steps S.Spelling.finds text.now at result }
{
    let place = at.place;
    let (value, taken) = found_at::<S>(at.first, want, text, place)?;
    let progress = at
        .progress
        .next(value.number())
        .ok_or(Reason::Limit.at(place))?;
    let end = place + taken;
    let next = Cursor {
        place: end,
        first: false,
        progress,
    };
    Ok((Placed { value, place, end }, next))
}

// Whether bytes are left over from a place on.
fn bytes_left(text: &[u8], place: usize) -> bool
    ensures { result ≡ nat_lt place (length text.now) }
{
    place < text.len()
}

// Along the whole layout of a row, from a place on: the place behind the last item, and the optional parts.
fn walk<'b, S: Spelling>(
    text: &'b [u8],
    row: Row,
    start: usize,
) -> Result<(usize, Parts<'b>), Refusal>
    requires { start ≤ length text.now }
    ensures { Walks S.Spelling.finds row text.now start result }
{
    let mut at = Cursor {
        place: start,
        first: true,
        progress: Progress::new(row),
    };
    let mut parts = Parts::new();
    // A `while let` that holds a `?` is a form that no proof is made for.
    loop {
        let Some(want) = at.progress.want() else {
            break;
        };
        let (item, next) = step::<S>(text, at, want)?;
        parts = parts.note(at.progress.stage, item.value);
        at = next;
    }
    Ok((at.place, parts))
}

// Whether the items of a text, from a place on, are all that a row's layout wants and nothing else; and the optional parts.
pub fn check<'b, S: Spelling>(text: &'b [u8], row: Row, start: usize) -> Result<Parts<'b>, Refusal>
    requires { start ≤ length text.now }
    ensures { Checks S.Spelling.finds row text.now start result }
{
    let (end, parts) = walk::<S>(text, row, start)?;
    if bytes_left(text, end) {
        return Err(Reason::Rest.at(end));
    }
    Ok(parts)
}

// The item at a cursor, and the cursor of the next one. A place behind the text's end counts as its end.
pub fn next<'b, S: Spelling>(text: &'b [u8], at: Cursor) -> Option<(Placed<Item<'b>>, Cursor)>
    ensures { Pulled (left S.Spelling.finds text.now) at result }
{
    let want = at.progress.want()?;
    let place = at.place.min(text.len());
    step::<S>(text, Cursor { place, ..at }, want).ok()
}
