// The optional parts of scan data, taken apart and written.
ghost use Rattle.std.specs.Prelude.{◌≡◌, ◌+◌, ◌≤◌, false, List, map, length};
ghost use Rattle.telegram.specs.Value.{value_of};
ghost use Rattle.layout.specs.Passing.{position_items, label_items, time_items, parts_items};
ghost use Rattle.spelling.specs.Canon.{written};
ghost use Rattle.spelling.specs.Output.{HasRoom, Puts};
ghost use Rattle.writing.specs.Parts.{Sized, Labelled};

use layout::records::{Parts, Position, Time};
use spelling::put::Output;
use spelling::terms::{FullSpelling, Spelling};
use telegram::item::Item;
use telegram::kind::Kind;

// The flag of what is absent.
const ABSENT: Item<'static> = Item::Number(Kind::Uint16, 0);

// The flag of what is there.
const PRESENT: Item<'static> = Item::Number(Kind::Uint16, 1);

// Writes items, the first of them as a telegram's first or not.
fn put_all<S: FullSpelling>(first: bool, items: &[Item<'_>], out: &mut Output<'_>)
    requires { HasRoom out.old (length (written S.Spelling.canon first (map value_of items.now))) }
    ensures { Puts out.old (written S.Spelling.canon first (map value_of items.now)) out.new }
{
    for (i, item) in items.iter().enumerate() {
        S::put(first && i == 0, *item, out);
    }
}

// Writes the flag of a position and, where there is one, the position. The parts differ in what they are made of, so a text for all of them would still list each.
fn put_position<S: FullSpelling>(first: bool, position: Option<Position>, out: &mut Output<'_>)
    requires { HasRoom out.old (length (written S.Spelling.canon first (position_items position))) }
    ensures { Puts out.old (written S.Spelling.canon first (position_items position)) out.new }
{
    match position {
        None => put_all::<S>(first, &[ABSENT], out),
        Some(p) => put_all::<S>(
            first,
            &[
                PRESENT,
                Item::Real(p.x),
                Item::Real(p.y),
                Item::Real(p.z),
                Item::Real(p.x_rotation),
                Item::Real(p.y_rotation),
                Item::Real(p.z_rotation),
                Item::Number(Kind::Uint8, u32::from(p.rotation_type)),
                Item::Number(Kind::Uint8, u32::from(p.sends_name)),
            ],
            out,
        ),
    }
}

// Writes the flag of a name or a comment and, where there is one, its length and its text.
fn put_label<S: FullSpelling>(label: Option<&[u8]>, out: &mut Output<'_>)
    requires sized { Sized label }
    requires room { HasRoom out.old (length (written S.Spelling.canon false (label_items label))) }
    ensures { Puts out.old (written S.Spelling.canon false (label_items label.entry)) out.new }
{
    match label {
        None => put_all::<S>(false, &[ABSENT], out),
        Some(text) => put_all::<S>(
            false,
            &[
                PRESENT,
                // Below 256, as the condition says: the cast is shown to fit.
                Item::Number(Kind::Uint8, text.len() as u32),
                Item::Text(text),
            ],
            out,
        ),
    }
}

// Writes the flag of a time and, where there is one, the time.
fn put_time<S: FullSpelling>(time: Option<Time>, out: &mut Output<'_>)
    requires { HasRoom out.old (length (written S.Spelling.canon false (time_items time))) }
    ensures { Puts out.old (written S.Spelling.canon false (time_items time)) out.new }
{
    match time {
        None => put_all::<S>(false, &[ABSENT], out),
        Some(t) => put_all::<S>(
            false,
            &[
                PRESENT,
                Item::Number(Kind::Uint16, u32::from(t.year)),
                Item::Number(Kind::Uint8, u32::from(t.month)),
                Item::Number(Kind::Uint8, u32::from(t.day)),
                Item::Number(Kind::Uint8, u32::from(t.hour)),
                Item::Number(Kind::Uint8, u32::from(t.minute)),
                Item::Number(Kind::Uint8, u32::from(t.second)),
                Item::Number(Kind::Uint32, t.microsecond),
            ],
            out,
        ),
    }
}

// Writes the items that the records stand for, and the event's flag.
pub(crate) fn put_parts<S: FullSpelling>(first: bool, parts: Parts<'_>, out: &mut Output<'_>)
    requires labelled { Labelled parts }
    requires room { HasRoom out.old (length (written S.Spelling.canon first (parts_items parts))) }
    ensures { Puts out.old (written S.Spelling.canon first (parts_items parts.entry)) out.new }
{
    put_position::<S>(first, parts.position, out);
    put_label::<S>(parts.name, out);
    put_label::<S>(parts.comment, out);
    put_time::<S>(parts.time, out);
    put_all::<S>(false, &[ABSENT], out);
}

// How many items the records stand for: a flag and maybe fields of each part, and the event's flag.
pub(crate) fn count(parts: Parts<'_>) -> usize
    ensures { result ≡ length (parts_items parts.entry) }
{
    let fields = parts.position.map_or(0, |_| 8)
        + parts.name.map_or(0, |_| 2)
        + parts.comment.map_or(0, |_| 2)
        + parts.time.map_or(0, |_| 7);
    5 + fields
}
