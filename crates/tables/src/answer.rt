// What reading says of bytes, as lines of text.
use framing::accepted::accept;
use framing::framing::Framing;
use layout::source::{Items, Source};
use page::item::{item_name, put_value};
use page::sheet::{put_refusal, put_title};
use std::alloc::AllocError;
use telegram::item::{Item, Placed};

// An item's kind, place, end and canonical letters. Page's line has no end; one text for both would take what stands in the middle as a text first, and be no shorter.
fn put_item(out: &mut Vec<u8>, item: Placed<Item<'_>>) -> Result<(), AllocError> {
    let Placed { value, place, end } = item;
    let name = item_name(value);
    let front = format!(in *out.allocator(); "{name} {place} {end} ")?;
    out.extend_from_slice(front.as_bytes())?;
    put_value(out, value)?;
    out.push(b'\n')?;
    Ok(())
}

// A telegram's type and name, and then each item.
fn put_telegram<S: Source>(out: &mut Vec<u8>, source: &S) -> Result<(), AllocError> {
    put_title(out, source.row())?;
    for item in Items::new(source) {
        put_item(out, item)?;
    }
    Ok(())
}

// The telegram, or the refusal.
pub fn put_answer<F: Framing>(
    out: &mut Vec<u8>,
    framing: &F,
    bytes: &[u8],
) -> Result<(), AllocError> {
    match accept(framing, bytes) {
        Ok(telegram) => put_telegram(out, &telegram),
        Err(refusal) => put_refusal(out, refusal),
    }
}
