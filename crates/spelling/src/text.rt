// Parts of an input: what stands from a place on, and a text of a stated length, which every spelling finds alike.
ghost use Rattle.std.specs.Prelude.{◌≡◌, drop};
ghost use Rattle.telegram.specs.Value.{printable, textual};
ghost use Rattle.spelling.specs.Spell.{Finds, text_of};

use telegram::item::Item;
use telegram::refusal::Fault;

// What stands from a place on.
pub fn tail(bytes: &[u8], from: usize) -> &[u8]
    ensures { result.now ≡ drop from bytes.now }
{
    bytes.get(from..).unwrap_or(&[])
}

// Whether a byte may stand in a text.
fn is_textual(b: u8) -> bool
    ensures { result ≡ textual b }
{
    matches!(b, 0x20..=0x7e)
}

fn all_printable(bytes: &[u8]) -> bool
    ensures { result ≡ printable bytes.now }
{
    bytes.iter().all(|b| is_textual(*b))
}

// The text of `len` bytes that stands first.
pub fn text_of<'b>(len: usize, bytes: &'b [u8]) -> Result<(Item<'b>, usize), Fault>
    ensures { Finds bytes.now (text_of len bytes.now) result }
{
    let text = bytes.get(..len).ok_or(Fault::Cut)?;
    if all_printable(text) {
        Ok((Item::Text(text), len))
    } else {
        Err(Fault::Misspelt)
    }
}
