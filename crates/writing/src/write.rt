// A whole telegram: its length, and its canonical spelling.
ghost use Rattle.std.specs.Prelude.{◌≡◌, ℕ, ◌+◌, ◌≤◌, Bool, true, List, ◌∷◌, ◌++◌, length, take, drop};
ghost use Rattle.telegram.specs.Catalogue.{command, name};
ghost use Rattle.layout.specs.Source.{Within, values};
ghost use Rattle.spelling.specs.Canon.{written};
ghost use Rattle.spelling.specs.Write.{Wrote, body_of, spelled};
ghost use Rattle.spelling.specs.Output.{HasRoom, Puts};
ghost use Rattle.writing.specs.Room.{Fits};

use crate::parts::{count, put_parts};
use layout::parts::is_scan;
use layout::source::{Items, Source};
use layout::telling::Telling;
use spelling::put::Output;
use spelling::terms::{FullSpelling, Spelling};
use telegram::refusal::{Reason, Refusal};
use telegram::row::Row;

// How many items there are, and how many bytes: those of the items, or those of the whole.
#[derive(Clone, Copy)]
struct Measure {
    items: usize,
    bytes: usize,
}

// How many items a telegram has, and how many bytes they take.
fn gauge<S: FullSpelling, T: Source>(telegram: &T) -> Measure
    requires few { length (T.Source.telegram telegram.now).items ≤ 65536 }
    requires short { length (written S.Spelling.canon true (T.Source.telegram telegram.now).items) ≤ 65536 }
    ensures items { result.items ≡ length (T.Source.telegram telegram.now).items }
    ensures bytes { result.bytes ≡ length (written S.Spelling.canon true (T.Source.telegram telegram.now).items) }
{
    // A `fold` was tried: its sums have no bound, and the proof did not close.
    let mut items = 0;
    let mut bytes = 0;
    for item in Items::new(telegram) {
        bytes += S::size(items == 0, item.value);
        items += 1;
    }
    Measure { items, bytes }
}

// Writes the type and the name of a row.
fn put_head(row: Row, out: &mut Output<'_>)
    requires { HasRoom out.old (length (command row ++ (32 ∷ name row))) }
    ensures { Puts out.old (command row ++ (32 ∷ name row)) out.new }
{
    out.put(row.command());
    out.put_blank();
    out.put(row.name());
}

// Writes the first items of a telegram.
fn put_items<S: FullSpelling, T: Source>(telegram: &T, n: usize, out: &mut Output<'_>)
    requires { HasRoom out.old (length (written S.Spelling.canon true (take n (T.Source.telegram telegram.now).items))) }
    ensures { Puts out.old (written S.Spelling.canon true (take n (T.Source.telegram telegram.now).items)) out.new }
{
    for (i, item) in Items::new(telegram).take(n).enumerate() {
        S::put(i == 0, item.value, out);
    }
}

// Writes the head and the items of a telegram.
fn put_body<S: FullSpelling, T: Source>(
    telling: &Telling<'_, T>,
    items: usize,
    out: &mut Output<'_>,
)
    requires counted { items ≡ length (T.Source.telegram telling.now.telegram.now).items }
    requires room { HasRoom out.old (length (body_of S.Spelling.canon (T.Source.telegram telling.now.telegram.now))) }
    ensures { Puts out.old (body_of S.Spelling.canon (T.Source.telegram telling.now.telegram.now)) out.new }
{
    let telegram = telling.telegram;
    let parts = telling.parts;
    let row = telegram.row();
    put_head(row, out);
    if is_scan(row) {
        let lead = items - count(parts);
        put_items::<S, T>(telegram, lead, out);
        put_parts::<S>(lead == 0, parts, out);
    } else {
        put_items::<S, T>(telegram, items, out);
    }
}

// How long the whole is, envelope and head included, whose items take so many bytes.
fn whole_length<S: FullSpelling>(row: Row, bytes: usize) -> usize
    requires { bytes ≤ 65536 }
    ensures { result ≡ S.FullSpelling.wrap.before + (length (command row ++ (32 ∷ name row)) + bytes + S.FullSpelling.wrap.after) }
{
    let (before, after) = S::margins();
    before + row.command().len() + 1 + row.name().len() + bytes + after
}

// How many items a telegram has, and how long its canonical spelling is.
fn gauge_whole<S: FullSpelling, T: Source>(telegram: &T) -> Measure
    requires { ∥ Within (T.Source.telegram telegram.now) ∥₁ }
    ensures items { result.items ≡ length (T.Source.telegram telegram.now).items }
    ensures bytes { result.bytes ≡ length (spelled S.Spelling.canon S.FullSpelling.wrap (T.Source.telegram telegram.now)) }
{
    let Measure { items, bytes } = gauge::<S, T>(telegram);
    Measure {
        items,
        bytes: whole_length::<S>(telegram.row(), bytes),
    }
}

// How long the canonical spelling of a telegram is.
pub fn length<S: FullSpelling, T: Source>(telegram: &T) -> usize
    requires { Within (T.Source.telegram telegram.now) }
    ensures { result ≡ length (spelled S.Spelling.canon S.FullSpelling.wrap (T.Source.telegram telegram.now)) }
{
    gauge_whole::<S, T>(telegram).bytes
}

// Whether an output has room for so many bytes.
fn fits(out: &[u8], bytes: usize) -> Result<(), Refusal>
    ensures { Fits (length out.now) bytes result }
{
    if out.len() < bytes {
        return Err(Reason::Room.at(bytes));
    }
    Ok(())
}

// Writes the canonical spelling of a telegram that has so many items.
fn put_whole<S: FullSpelling, T: Source>(telling: &Telling<'_, T>, items: usize, out: &mut [u8])
    requires counted { items ≡ length (T.Source.telegram telling.now.telegram.now).items }
    requires room { length (spelled S.Spelling.canon S.FullSpelling.wrap (T.Source.telegram telling.now.telegram.now)) ≤ length out.old }
    ensures { out.new ≡ spelled S.Spelling.canon S.FullSpelling.wrap (T.Source.telegram telling.now.telegram.now) ++ drop (length (spelled S.Spelling.canon S.FullSpelling.wrap (T.Source.telegram telling.now.telegram.now))) out.old }
{
    let (before, _) = S::margins();
    let mut body = Output {
        bytes: &mut *out,
        at: before,
    };
    put_body::<S, T>(telling, items, &mut body);
    let end = body.at;
    S::enclose(out, end);
}

// Writes the canonical spelling of a telegram at the output's start, unless the output is too short.
pub fn write<S: FullSpelling, T: Source>(
    telling: &Telling<'_, T>,
    out: &mut [u8],
) -> Result<usize, Refusal>
    ensures { Wrote (spelled S.Spelling.canon S.FullSpelling.wrap (T.Source.telegram telling.now.telegram.now)) out.old out.new result }
{
    let Measure { items, bytes } = gauge_whole::<S, T>(telling.telegram);
    fits(out, bytes)?;
    put_whole::<S, T>(telling, items, out);
    Ok(bytes)
}
