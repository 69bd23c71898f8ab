// A telegram at hand, whose items are pulled one after the other.
ghost use Rattle.std.specs.Prelude.{◌≡◌, List};
ghost use Rattle.layout.specs.declared.cursor.Cursor.{Cursor as At};
ghost use Rattle.layout.specs.Source.{Telegram, Seen, Pulled, values, seen_of};
ghost use Rattle.std.specs.Iterator.{YieldsFirstBy, item_count};

use crate::cursor::Cursor;
use telegram::item::{Item, Placed};
use telegram::row::Row;

pub trait Source {
    ghost telegram: { Self → Telegram };

    // Its items with their places.
    ghost items: { Self → List Seen };

    // The items from a cursor on.
    ghost rest: { Self → At → List Seen };

    fn row(&self) -> Row
        ensures { result ≡ (telegram self.now).row };

    fn start(&self) -> Cursor
        ensures all { rest self.now result ≡ items self.now }
        ensures values { values (items self.now) ≡ (telegram self.now).items };

    fn next(&self, at: Cursor) -> Option<(Placed<Item<'_>>, Cursor)>
        ensures { Pulled (rest self.now) at result };
}

// The items of a telegram, one after the other, from a cursor on.
#[derive_where(Clone, Copy)]
pub struct Items<'t, T> {
    telegram: &'t T,
    at: Cursor,
}

impl<'t, T: Source> Items<'t, T> {
    pub fn new(telegram: &'t T) -> Items<'t, T>
        ensures all { T.Source.rest result.telegram.now result.at ≡ T.Source.items telegram.now }
        ensures values { values (T.Source.rest result.telegram.now result.at) ≡ (T.Source.telegram telegram.now).items }
    {
        Items {
            telegram,
            at: telegram.start(),
        }
    }
}

impl<'t, T: Source> Iterator for Items<'t, T> {
    type Item = Placed<Item<'t>>;

    ghost next_gives = { YieldsFirstBy seen_of (λ s. T.Source.rest s.telegram.now s.at) };

    ghost remaining = { item_count (λ s. T.Source.rest s.telegram.now s.at) };

    fn next(&mut self) -> Option<Placed<Item<'t>>> {
        let (item, at) = self.telegram.next(self.at)?;
        self.at = at;
        Some(item)
    }
}
