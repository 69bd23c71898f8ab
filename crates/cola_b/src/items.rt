// Items. Numbers stand highest byte first, in the width of their kind.
ghost use Rattle.std.specs.Prelude.{◌≡◌, ℕ, ◌+◌, ◌≤◌, ◌∷◌, length, nat_lt};
ghost use Rattle.telegram.specs.Kind.{bytes as width, patterns};
ghost use Rattle.spelling.specs.Spell.{Finds, blanked};
ghost use Rattle.telegram.specs.Value.{value_of};
ghost use Rattle.spelling.specs.Canon.{fixed};
ghost use Rattle.spelling.specs.Output.{HasRoom, Puts};
ghost use Rattle.cola_b.specs.Canon.{octets, canon_binary};
ghost use Rattle.cola_b.specs.Items.{front, number_in, real_in, bare};

use spelling::blank::behind_blank;
use spelling::put::Output;
use spelling::text::text_of;
use telegram::item::{Item, Want};
use telegram::kind::Kind;
use telegram::refusal::Fault;

// The number that the first four bytes spell, if there are as many.
pub(crate) fn four(bytes: &[u8]) -> Option<u32>
    ensures { result ≡ front 4 bytes.now }
{
    bytes.first_chunk().map(|chunk| u32::from_be_bytes(*chunk))
}

// The pattern that stands first, in the width of a kind.
fn pattern(kind: Kind, bytes: &[u8]) -> Option<u32>
    ensures { result ≡ front (width kind) bytes.now }
{
    match kind {
        Kind::Bool | Kind::Uint8 | Kind::Int8 => bytes.first().map(|b| u32::from(*b)),
        Kind::Uint16 => bytes
            .first_chunk()
            .map(|chunk| u32::from(u16::from_be_bytes(*chunk))),
        Kind::Uint32 | Kind::Int32 => four(bytes),
    }
}

// Whether a number is a pattern of a kind: of a Bool, 0 or 1.
fn is_pattern(kind: Kind, value: u32) -> bool
    ensures { result ≡ nat_lt value (patterns kind) }
{
    u64::from(value) < kind.span()
}

// A number of a kind, and how many bytes it takes.
fn number_of<'b>(kind: Kind, bytes: &'b [u8]) -> Result<(Item<'b>, usize), Fault>
    ensures { Finds bytes.now (number_in kind bytes.now) result }
{
    let value = pattern(kind, bytes).ok_or(Fault::Cut)?;
    if !is_pattern(kind, value) {
        return Err(Fault::Misspelt);
    }
    Ok((Item::Number(kind, value), kind.width()))
}

// A Real, which may be any pattern, and how many bytes it takes.
fn real_of<'b>(bytes: &'b [u8]) -> Result<(Item<'b>, usize), Fault>
    ensures { Finds bytes.now (real_in bytes.now) result }
{
    let value = four(bytes).ok_or(Fault::Cut)?;
    Ok((Item::Real(value), 4))
}

// An item with no blank before it, and how many bytes it takes.
pub(crate) fn item_of<'b>(want: Want, bytes: &'b [u8]) -> Result<(Item<'b>, usize), Fault>
    ensures { Finds bytes.now (bare want bytes.now) result }
{
    match want {
        Want::Number(kind) => number_of(kind, bytes),
        Want::Real => real_of(bytes),
        Want::Text(len) => text_of(len, bytes),
    }
}

// An item behind a blank, and how many bytes it takes with that.
pub(crate) fn blanked_of<'b>(want: Want, bytes: &'b [u8]) -> Result<(Item<'b>, usize), Fault>
    ensures { Finds bytes.now (blanked (bare want) bytes.now) result }
{
    behind_blank(bytes, |behind| item_of(want, behind))
}

// Writes a number in the width of its kind, the highest byte first. Each width is a match arm of its own: a part of the four bytes, of a length known only when it runs, would be copied by a call of the C library.
fn put_number(kind: Kind, v: u32, out: &mut Output<'_>)
    requires { HasRoom out.old (width kind) }
    ensures { Puts out.old (fixed 256 (width kind) v) out.new }
{
    let [a, b, c, d] = v.to_be_bytes();
    match kind {
        Kind::Bool | Kind::Uint8 | Kind::Int8 => out.put(&[d]),
        Kind::Uint16 => out.put(&[c, d]),
        Kind::Uint32 | Kind::Int32 => out.put(&[a, b, c, d]),
    }
}

// Writes an item with no blank before it.
pub(crate) fn put_bare(item: Item<'_>, out: &mut Output<'_>)
    requires { HasRoom out.old (length (octets (value_of item))) }
    ensures { Puts out.old (octets (value_of item.entry)) out.new }
{
    match item {
        Item::Number(kind, v) => put_number(kind, v, out),
        Item::Real(v) => put_number(Kind::Uint32, v, out),
        Item::Text(s) => out.put(s),
    }
}

// Writes an item behind a blank. Two calls, of which the second is this spelling's own: one text for all spellings would be no shorter.
pub(crate) fn put_blanked(item: Item<'_>, out: &mut Output<'_>)
    requires { HasRoom out.old (1 + length (octets (value_of item))) }
    ensures { Puts out.old (32 ∷ octets (value_of item.entry)) out.new }
{
    out.put_blank();
    put_bare(item, out);
}

// How many bytes an item takes with no blank before it.
pub(crate) fn bare_size(item: Item<'_>) -> usize
    ensures { result ≡ length (octets (value_of item.entry)) }
{
    match item {
        Item::Number(kind, _) => kind.width(),
        Item::Real(_) => 4,
        Item::Text(s) => s.len(),
    }
}
