// Runs of digits, hexadecimal and decimal alike.
ghost use Rattle.std.specs.Prelude.{◌≡◌, ℕ, ◌≤◌};
ghost use Rattle.cola_a.specs.Digits.{radix, run, Says, Runs};

use telegram::refusal::Fault;

// The base of a number: ten behind a sign, and sixteen else.
#[derive(Clone, Copy, PartialEq, Eq)]
pub enum Base {
    Ten,
    Sixteen,
}

// What a byte is to a run of digits: one more of them, or the blank behind them.
#[derive(Clone, Copy)]
pub enum Glyph {
    Digit(u8),
    Blank,
}

// A run of digits: how many, and their number.
#[derive(Clone, Copy)]
pub struct Digits {
    pub count: usize,
    pub value: u64,
}

impl Base {
    pub fn radix(self) -> u64
        ensures { result ≡ radix self }
    {
        match self {
            Base::Ten => 10,
            Base::Sixteen => 16,
        }
    }
}

// What a byte is after `count` digits, where at most `most` may stand.
fn glyph_of(b: u8, base: Base, count: usize, most: usize) -> Result<Glyph, Fault>
    ensures { Says (radix base) most count b result }
{
    match b {
        b'0'..=b'9' if count < most => Ok(Glyph::Digit(b - b'0')),
        b'A'..=b'F' if count < most && base == Base::Sixteen => Ok(Glyph::Digit(b - b'A' + 10)),
        b' ' => Ok(Glyph::Blank),
        _ => Err(Fault::Misspelt),
    }
}

// The digits that bytes begin with, up to the next blank or the end, of which ten at most may be asked for.
pub(crate) fn digits_of(bytes: &[u8], base: Base, most: usize) -> Result<Digits, Fault>
    requires { most ≤ 10 }
    ensures { Runs bytes.now (run (radix base) most 0 0 bytes.now) result }
{
    let mut value: u64 = 0;
    for (count, b) in bytes.iter().enumerate() {
        match glyph_of(*b, base, count, most)? {
            Glyph::Digit(digit) => value = value * base.radix() + u64::from(digit),
            Glyph::Blank => return Ok(Digits { count, value }),
        }
    }
    Ok(Digits {
        count: bytes.len(),
        value,
    })
}
