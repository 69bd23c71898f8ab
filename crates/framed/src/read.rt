// Reading: the size, the envelope, the head, and then the items.
ghost use Rattle.std.specs.Prelude.{◌≡◌, ℕ, ◌+◌, ◌≤◌, length, drop, ◌==◌, position};
ghost use Rattle.layout.specs.Layout.{layout};
ghost use Rattle.spelling.specs.Walk.{left};
ghost use Rattle.framing.specs.Read.{word, head, after_head, headed, reads, Names, Holds, Reads};

use framing::head::Head;
use layout::cursor::Cursor;
use layout::stage::Progress;
use spelling::terms::{Extent, Spelling};
use spelling::text::tail;
use spelling::walk::check;
use telegram::refusal::{Reason, Refusal};
use telegram::row::Row;

// The longest input that is read.
pub const LONGEST: usize = 65_536;

// The place of the first blank.
fn first_blank(bytes: &[u8]) -> Option<usize>
    ensures { result ≡ position (λ b. b == 32) bytes.now }
{
    bytes.iter().position(|b| *b == b' ')
}

// What stands before the next blank or the end.
fn word(bytes: &[u8]) -> &[u8]
    ensures { result.now ≡ word bytes.now }
{
    match first_blank(bytes) {
        Some(end) => &bytes[..end],
        None => bytes,
    }
}

// The row that a body's head names, and how long the head is.
fn row_of(body: &[u8]) -> Option<(Row, usize)>
    ensures { Names body.now result }
{
    if body.get(3) != Some(&b' ') {
        return None;
    }
    let name = word(tail(body, 4));
    let row = Row::find(&body[..3], name)?;
    Some((row, 4 + name.len()))
}

// Where the head's span ends, by its place in the whole input, as in a step of the walk: where that is allowed, a blank behind a head that has no items belongs to it.
fn after_blank<S: Spelling>(text: &[u8], row: Row, at: usize) -> usize
    requires { at ≤ length text.now }
    ensures same { drop result text.now ≡ after_head S.Spelling.spare (layout row) (drop at text.now) }
    ensures inside { result ≤ length text.now }
{
    let spared = S::spares_blank() && Progress::new(row).want().is_none();
    if spared && text.get(at) == Some(&b' ') {
        at + 1
    } else {
        at
    }
}

// The telegram in a text that ends where its body does. Its place is one of the whole input, as in a step of the walk.
fn read_body<'b, S: Spelling>(text: &'b [u8], from: usize) -> Result<Head<'b>, Refusal>
    requires { from ≤ length text.now }
    ensures { Holds S.Spelling.finds text.now (headed S.Spelling.finds S.Spelling.spare text.now from (head (drop from text.now))) result }
{
    let (row, n) = row_of(tail(text, from)).ok_or(Reason::Unknown.at(from))?;
    let place = after_blank::<S>(text, row, from + n);
    let parts = check::<S>(text, row, place)?;
    let start = Cursor {
        place,
        first: true,
        progress: Progress::new(row),
    };
    Ok(Head {
        text,
        row,
        from,
        start,
        parts,
    })
}

// What bytes come to.
pub fn read<'b, S: Spelling>(bytes: &'b [u8]) -> Result<Head<'b>, Refusal>
    ensures { Reads (left S.Spelling.finds) bytes.now (reads S.Spelling.opens S.Spelling.spare S.Spelling.finds bytes.now) result }
{
    if bytes.is_empty() || bytes.len() > LONGEST {
        return Err(Reason::Size.at(0));
    }
    let Extent { from, to } = S::open(bytes)?;
    read_body::<S>(&bytes[..to], from)
}
