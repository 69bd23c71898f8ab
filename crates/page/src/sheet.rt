// The sheet of bytes: a telegram's type, name and items, or its refusal.
ghost use Rattle.std.specs.Prelude.{◌≡◌, List, ◌++◌, IfOk, OnOk};
ghost use Rattle.telegram.specs.Refusal.{reason_number};
ghost use Rattle.framing.specs.Items.{items_of, rest};
ghost use Rattle.page.specs.Page.{pair, title, lines, refusal, page, sheet_of};

use crate::item::put_line;
use framing::accepted::{Accepted, accept};
use framing::framing::{Framing, Meaning};
use framing::items::Items;
use known::told;
use layout::source::Source;
use std::alloc::{AllocError, Global};
use telegram::refusal::Refusal;
use telegram::row::Row;

// Adds a line of two words.
fn put_pair(out: &mut Vec<u8>, first: &[u8], second: &[u8]) -> Result<(), AllocError>
    ensures { OnOk result (out.new.items ≡ out.old.items ++ pair first.now second.now) }
{
    out.extend_from_slice(first)?;
    out.push(b' ')?;
    out.extend_from_slice(second)?;
    out.push(b'\n')?;
    Ok(())
}

// Adds a telegram's type and name.
pub fn put_title(out: &mut Vec<u8>, row: Row) -> Result<(), AllocError>
    ensures { OnOk result (out.new.items ≡ out.old.items ++ title row) }
{
    put_pair(out, row.command(), row.name())
}

// Adds a line for each item.
fn put_items<F: Framing>(out: &mut Vec<u8>, items: Items<'_, '_, F>) -> Result<(), AllocError>
    ensures { OnOk result (out.new.items ≡ out.old.items ++ lines (rest F.Meaning.left items.entry)) }
{
    for item in items {
        put_line(out, item)?;
    }
    Ok(())
}

// Adds the sheet of a telegram that is accepted.
fn put_telegram<F: Framing>(
    out: &mut Vec<u8>,
    telegram: &Accepted<'_, '_, F>,
) -> Result<(), AllocError>
    ensures { OnOk result (out.new.items ≡ out.old.items ++ (title telegram.now.head.row ++ lines (items_of F.Meaning.left telegram.now))) }
{
    put_title(out, telegram.row())?;
    put_items(out, telegram.items())
}

// Adds the line of a refusal.
pub fn put_refusal(out: &mut Vec<u8>, why: Refusal) -> Result<(), AllocError>
    ensures { OnOk result (out.new.items ≡ out.old.items ++ refusal (reason_number why.reason) why.place) }
{
    let line = format!(in *out.allocator(); "{why}\n")?;
    out.extend_from_slice(line.as_bytes())
}

// The sheet of bytes in a framing.
pub fn sheet_in<F: Framing>(heap: Global, framing: &F, bytes: &[u8]) -> Result<Vec<u8>, AllocError>
    ensures { IfOk result (λ v. v.items ≡ page (F.Meaning.reads framing.now bytes.now)) }
{
    let mut out = Vec::new(heap);
    match accept(framing, bytes) {
        Ok(telegram) => put_telegram(&mut out, &telegram)?,
        Err(why) => put_refusal(&mut out, why)?,
    }
    Ok(out)
}

// The sheet of bytes, in binary if their second is 02, else as text.
pub fn sheet(heap: Global, bytes: &[u8]) -> Result<Vec<u8>, AllocError>
    ensures { IfOk result (λ v. v.items ≡ sheet_of bytes.now) }
{
    sheet_in(heap, &told(bytes), bytes)
}

#[cfg(test)]
mod tests {
    use super::*;
    use std::test::Fail;
    use telegram::refusal::Reason;

    // The command and the name of a row.
    #[test]
    fn puts_a_title(rt: HostRuntime) -> Result<(), Fail> {
        let mut out = Vec::new(rt.alloc());
        put_title(&mut out, Row::SmnRun)?;
        assert_eq!(rt; out.as_slice(), b"sMN Run\n".as_slice());
        Ok(())
    }

    // A reason's number, and a place.
    #[test]
    fn puts_a_refusal(rt: HostRuntime) -> Result<(), Fail> {
        let mut out = Vec::new(rt.alloc());
        put_refusal(&mut out, Reason::Limit.at(61))?;
        assert_eq!(rt; out.as_slice(), b"refused 7 61\n".as_slice());
        Ok(())
    }
}
