// The line of an item: its kind, its place, and its canonical letters.
ghost use Rattle.std.specs.Prelude.{◌≡◌, List, ◌++◌, OnOk};
ghost use Rattle.telegram.specs.Value.{value_of};
ghost use Rattle.layout.specs.Source.{seen_of};
ghost use Rattle.cola_a.specs.Canon.{letters};
ghost use Rattle.page.specs.Page.{kind_name, value_name, line};

use cola_a::canon::{digit_count, write_digits};
use std::alloc::AllocError;
use telegram::item::{Item, Placed};
use telegram::kind::Kind;

// The name of a kind of numbers. It is lent as it stands: a `Display` would write it anew, and an item, which is more than its kind, has none.
pub fn kind_name(kind: Kind) -> &'static str
    ensures { result.now ≡ kind_name kind }
{
    match kind {
        Kind::Bool => "Bool",
        Kind::Uint8 => "Uint_8",
        Kind::Uint16 => "Uint_16",
        Kind::Uint32 => "Uint_32",
        Kind::Int8 => "Int_8",
        Kind::Int32 => "Int_32",
    }
}

// The name of an item's kind.
pub fn item_name(item: Item<'_>) -> &'static str
    ensures { result.now ≡ value_name (value_of item.entry) }
{
    match item {
        Item::Number(kind, _) => kind_name(kind),
        Item::Real(_) => "Real",
        Item::Text(_) => "text",
    }
}

// Adds the canonical letters of an item.
pub fn put_value(out: &mut Vec<u8>, item: Item<'_>) -> Result<(), AllocError>
    ensures { OnOk result (out.new.items ≡ out.old.items ++ letters (value_of item.entry)) }
{
    match item {
        Item::Number(_, value) | Item::Real(value) => {
            // No number has more digits. With `{value:X}` in place of the buffer the answer stays open.
            let mut digits = [b'0'; 8];
            let digits = &mut digits[..digit_count(item)];
            write_digits(digits, value);
            out.extend_from_slice(digits)
        }
        Item::Text(text) => out.extend_from_slice(text),
    }
}

// Adds the line of an item.
pub(crate) fn put_line(out: &mut Vec<u8>, item: Placed<Item<'_>>) -> Result<(), AllocError>
    ensures { OnOk result (out.new.items ≡ out.old.items ++ line (seen_of item.entry)) }
{
    let name = item_name(item.value);
    let place = item.place;
    let front = format!(in *out.allocator(); "{name} {place} ")?;
    out.extend_from_slice(front.as_bytes())?;
    put_value(out, item.value)?;
    out.push(b'\n')?;
    Ok(())
}
