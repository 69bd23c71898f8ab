// The items of a text, one after the other.
ghost use Rattle.layout.specs.Source.{seen_of};
ghost use Rattle.framing.specs.Items.{rest};
ghost use Rattle.std.specs.Iterator.{YieldsFirstBy, item_count};

use crate::framing::{Framing, Meaning};
use layout::cursor::Cursor;
use telegram::item::{Item, Placed};

// The items in a framing, from a cursor on, in an input up to its body's end. Their texts live as long as the input; those that `layout::source::Items` hands out, of any source, as long as the source is borrowed.
#[derive_where(Clone, Copy)]
pub struct Items<'f, 'b, F> {
    pub(crate) framing: &'f F,
    pub(crate) text: &'b [u8],
    pub(crate) at: Cursor,
}

impl<'f, 'b, F: Framing> Iterator for Items<'f, 'b, F> {
    type Item = Placed<Item<'b>>;

    ghost next_gives = { YieldsFirstBy seen_of (rest F.Meaning.left) };

    ghost remaining = { item_count (rest F.Meaning.left) };

    fn next(&mut self) -> Option<Placed<Item<'b>>> {
        let (item, at) = self.framing.pull(self.text, self.at)?;
        self.at = at;
        Some(item)
    }
}
