// Items written: the canonical letters of a value, behind a blank.
ghost use Rattle.std.specs.Prelude.{◌≡◌, ℕ, ◌+◌, ◌<◌, ◌≤◌, List, ◌∷◌, length};
ghost use Rattle.telegram.specs.Value.{value_of};
ghost use Rattle.spelling.specs.Output.{HasRoom, Puts};
ghost use Rattle.spelling.specs.Write.{Put};
ghost use Rattle.cola_a.specs.Canon.{letter, hex_digits, hexadecimals, letters, size};

use spelling::put::Output;
use telegram::item::Item;

// How many digits a Real has.
const REAL_DIGITS: usize = 8;

// The capital hexadecimal digit of a number; std's `from_digit` writes small letters. A digit is shown to fit its cast.
fn letter_of(d: u32) -> u8
    requires { d < 16 }
    ensures { result ≡ letter d }
{
    match d {
        0..=9 => b'0' + d as u8,
        _ => b'A' - 10 + d as u8,
    }
}

// How many digits a number has; 0 has none.
fn hex_digits(value: u32) -> usize
    ensures { result ≡ hex_digits value }
{
    match value {
        0 => 0,
        0x1..=0xf => 1,
        0x10..=0xff => 2,
        0x100..=0xfff => 3,
        0x1000..=0xffff => 4,
        0x1_0000..=0xf_ffff => 5,
        0x10_0000..=0xff_ffff => 6,
        0x100_0000..=0xfff_ffff => 7,
        _ => 8,
    }
}

// How many digits are written of an item; of a text none.
pub fn digit_count(item: Item<'_>) -> usize
    ensures size { result ≡ size (value_of item.entry) }
    ensures most { result ≤ 8 }
{
    match item {
        Item::Number(_, value) => hex_digits(value).max(1),
        Item::Real(_) => REAL_DIGITS,
        Item::Text(_) => 0,
    }
}

// Writes the lowest digits of `value`, as many as there is room for.
pub fn write_digits(digits: &mut [u8], value: u32)
    ensures { digits.new ≡ hexadecimals (length digits.old) value }
{
    let mut rest = value;
    // By index: what is written through `iter_mut` is not known afterwards.
    for i in (0..digits.len()).rev() {
        digits[i] = letter_of(rest % 16);
        rest /= 16;
    }
}

// Writes the n lowest digits of `value` at a place.
fn digits_to(out: &mut [u8], at: usize, n: usize, value: u32)
    requires { at + n ≤ length out.old }
    ensures { Put out.old at (hexadecimals n value) out.new (at + n) }
{
    write_digits(&mut out[at..at + n], value);
}

// Writes the n lowest digits of `value`: where they belong, so that none is copied.
fn put_digits(n: usize, value: u32, out: &mut Output<'_>)
    requires { HasRoom out.old n }
    ensures { Puts out.old (hexadecimals n value) out.new }
{
    digits_to(out.bytes, out.at, n, value);
    out.at += n;
}

// Writes the letters of an item.
fn put_letters(item: Item<'_>, out: &mut Output<'_>)
    requires { HasRoom out.old (length (letters (value_of item))) }
    ensures { Puts out.old (letters (value_of item.entry)) out.new }
{
    match item {
        Item::Number(_, value) | Item::Real(value) => put_digits(digit_count(item), value, out),
        Item::Text(s) => out.put(s),
    }
}

// Writes an item behind its blank.
pub(crate) fn put_item(item: Item<'_>, out: &mut Output<'_>)
    requires { HasRoom out.old (1 + length (letters (value_of item))) }
    ensures { Puts out.old (32 ∷ letters (value_of item.entry)) out.new }
{
    out.put_blank();
    put_letters(item, out);
}

// How many letters an item has.
pub(crate) fn letter_count(item: Item<'_>) -> usize
    ensures { result ≡ length (letters (value_of item.entry)) }
{
    match item {
        Item::Number(_, _) | Item::Real(_) => digit_count(item),
        Item::Text(s) => s.len(),
    }
}
