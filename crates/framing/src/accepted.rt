// Bytes that a framing accepts, as a telegram at hand.
ghost use Rattle.std.specs.Prelude.{◌≡◌, ℕ, ◌+◌, length, drop};
ghost use Rattle.layout.specs.Source.{values};
ghost use Rattle.framing.specs.Items.{items_of, rest};
ghost use Rattle.framing.specs.Read.{Keeps, Reads, Accepts};

use crate::framing::{Framing, Meaning};
use crate::head::Head;
use crate::items::Items;
use layout::cursor::Cursor;
use layout::records::Parts;
use layout::source::Source;
use spelling::text::tail;
use telegram::item::{Item, Placed};
use telegram::refusal::Refusal;
use telegram::row::Row;

#[derive_where(Clone, Copy)]
pub struct Accepted<'f, 'b, F> {
    framing: &'f F,
    head: Head<'b>,
}

impl<'f, 'b, F: Framing> Source for Accepted<'f, 'b, F> {
    ghost telegram = { λ s. record { row = s.head.row; items = values (items_of F.Meaning.left s) } };

    ghost items = { items_of F.Meaning.left };

    ghost rest = { λ s. F.Meaning.left s.framing.now s.head.text.now };

    fn row(&self) -> Row {
        self.head.row
    }

    fn start(&self) -> Cursor {
        self.head.start
    }

    fn next(&self, at: Cursor) -> Option<(Placed<Item<'_>>, Cursor)> {
        self.framing.pull(self.head.text, at)
    }
}

impl<'f, 'b, F: Framing> Accepted<'f, 'b, F> {
    // The framing.
    pub fn framing(&self) -> &'f F
        ensures { result.now ≡ self.now.framing.now }
    {
        self.framing
    }

    // The input up to the body's end.
    pub fn text(&self) -> &'b [u8]
        ensures { result.now ≡ self.now.head.text.now }
    {
        self.head.text
    }

    // Its items, one after the other.
    pub fn items(&self) -> Items<'f, 'b, F>
        ensures { rest F.Meaning.left result ≡ items_of F.Meaning.left self.now }
    {
        Items {
            framing: self.framing,
            text: self.head.text,
            at: self.head.start,
        }
    }

    // The body, as a part of the input.
    pub fn body(&self) -> &'b [u8]
        ensures { result.now ≡ drop self.now.head.from self.now.head.text.now }
    {
        tail(self.text(), self.head.from)
    }

    // The optional parts of scan data; none of them in any other telegram.
    pub fn parts(&self) -> Parts<'b>
        ensures { result ≡ self.now.head.parts }
    {
        self.head.parts
    }

    // The row, with the place of the head's span and the place behind it.
    pub fn head(&self) -> Placed<Row>
        ensures row { result.value ≡ self.now.head.row }
        ensures place { result.place ≡ self.now.head.from }
        ensures end { result.end ≡ self.now.head.start.place }
    {
        Placed {
            value: self.head.row,
            place: self.head.from,
            end: self.head.start.place,
        }
    }
}

// What bytes come to in a framing.
pub fn read_in<'b, F: Framing>(framing: &F, bytes: &'b [u8]) -> Result<Head<'b>, Refusal>
    ensures answer { Reads (F.Meaning.left framing.now) bytes.now (F.Meaning.reads framing.now bytes.now) result }
    ensures keeps { Keeps bytes.now (F.Meaning.reads framing.now bytes.now) }
{
    framing.read(bytes)
}

// Reads bytes in a framing.
pub fn accept<'f, 'b, F: Framing>(
    framing: &'f F,
    bytes: &'b [u8],
) -> Result<Accepted<'f, 'b, F>, Refusal>
    ensures answer { Accepts (λ a. a.framing.now) (λ a. a.head) F.Meaning.left F.Meaning.reads framing.now bytes.now result }
    ensures keeps { Keeps bytes.now (F.Meaning.reads framing.now bytes.now) }
{
    let head = read_in(framing, bytes)?;
    Ok(Accepted { framing, head })
}
