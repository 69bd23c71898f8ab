// Items, with the blank before them.
ghost use Rattle.std.specs.Prelude.{◌≡◌, ℕ, ◌*◌, ◌≤◌, cond};
ghost use Rattle.telegram.specs.Kind.{bytes as width, patterns};
ghost use Rattle.spelling.specs.Spell.{Finds, blanked};
ghost use Rattle.cola_a.specs.Digits.{run};
ghost use Rattle.cola_a.specs.Items.{upward, downward, hexadecimal, is_minus, pattern, decimal, number_after, real_after, bare, signs, Leads};

use crate::digits::{Base, Digits, digits_of};
use spelling::blank::behind_blank;
use spelling::text::text_of;
use telegram::item::{Item, Want};
use telegram::kind::Kind;
use telegram::refusal::Fault;

// A sign, of a number in decimal.
#[derive(Clone, Copy, PartialEq, Eq)]
pub enum Sign {
    Plus,
    Minus,
}

// How an item begins: with a sign for decimal, or with a digit for hexadecimal.
#[derive(Clone, Copy)]
pub enum Lead {
    Signed(Sign),
    Digit,
}

// Whether what is wanted may have a sign: a number may, a Real not.
fn takes_sign(want: Want) -> bool
    ensures { result ≡ signs want }
{
    matches!(want, Want::Number(_))
}

// How what is wanted begins, by its first byte.
fn lead_of(want: Want, first: u8) -> Result<Lead, Fault>
    ensures { Leads want first result }
{
    match first {
        b'+' if takes_sign(want) => Ok(Lead::Signed(Sign::Plus)),
        b'-' if takes_sign(want) => Ok(Lead::Signed(Sign::Minus)),
        b'0'..=b'9' | b'A'..=b'F' => Ok(Lead::Digit),
        _ => Err(Fault::Misspelt),
    }
}

impl Sign {
    // How many numbers of a kind, from 0 on, may stand behind the sign: of an unsigned kind, -0 alone.
    fn limit(self, kind: Kind) -> u64
        ensures { result ≡ cond (is_minus self) (downward kind) (upward kind) }
    {
        match (self, kind) {
            (Sign::Plus, Kind::Int8) => 0x80,
            (Sign::Plus, Kind::Int32) => 0x8000_0000,
            (Sign::Plus, _) => kind.span(),
            (Sign::Minus, Kind::Int8) => 0x81,
            (Sign::Minus, Kind::Int32) => 0x8000_0001,
            (Sign::Minus, _) => 1,
        }
    }

    // The pattern of a number of a kind behind the sign: of a negative one, what it lacks to all patterns.
    fn pattern(self, kind: Kind, value: u64) -> u64
        requires { value ≤ patterns kind }
        ensures { result ≡ pattern kind (is_minus self) value }
    {
        match (self, value) {
            (Sign::Plus, _) | (Sign::Minus, 0) => value,
            (Sign::Minus, _) => kind.span() - value,
        }
    }
}

// A number in hexadecimal, by the pattern of its full width. The casts here and below are shown to fit; a `try_from` would have an error that cannot come.
fn plain<'b>(kind: Kind, bytes: &'b [u8]) -> Result<(Item<'b>, usize), Fault>
    ensures { Finds bytes.now (hexadecimal kind (run 16 (2 * width kind) 0 0 bytes.now)) result }
{
    let Digits { count, value } = digits_of(bytes, Base::Sixteen, 2 * kind.width())?;
    if count == 0 || value >= kind.span() {
        return Err(Fault::Misspelt);
    }
    Ok((Item::Number(kind, value as u32), count))
}

// A number in decimal, behind its sign.
fn signed<'b>(kind: Kind, sign: Sign, bytes: &'b [u8]) -> Result<(Item<'b>, usize), Fault>
    ensures { Finds bytes.now (decimal kind (is_minus sign) (run 10 10 0 0 bytes.now)) result }
{
    let Digits { count, value } = digits_of(bytes, Base::Ten, 10)?;
    if count == 0 || value >= sign.limit(kind) {
        return Err(Fault::Misspelt);
    }
    Ok((Item::Number(kind, sign.pattern(kind, value) as u32), count))
}

// The eight digits of a Real.
fn eight<'b>(bytes: &'b [u8]) -> Result<(Item<'b>, usize), Fault>
    ensures { Finds bytes.now (real_after bytes.now) result }
{
    let Digits { count, value } = digits_of(bytes, Base::Sixteen, 8)?;
    if count != 8 {
        return Err(Fault::Misspelt);
    }
    Ok((Item::Real(value as u32), count))
}

// A number of a kind: a sign for decimal, or a digit for hexadecimal.
fn number_after<'b>(kind: Kind, bytes: &'b [u8]) -> Result<(Item<'b>, usize), Fault>
    ensures { Finds bytes.now (number_after kind bytes.now) result }
{
    let (first, behind) = bytes.split_first().ok_or(Fault::Misspelt)?;
    match lead_of(Want::Number(kind), *first)? {
        Lead::Signed(sign) => {
            let (item, taken) = signed(kind, sign, behind)?;
            Ok((item, 1 + taken))
        }
        Lead::Digit => plain(kind, bytes),
    }
}

// A Real: eight hexadecimal digits.
fn real_after<'b>(bytes: &'b [u8]) -> Result<(Item<'b>, usize), Fault>
    ensures { Finds bytes.now (real_after bytes.now) result }
{
    let first = bytes.first().ok_or(Fault::Misspelt)?;
    match lead_of(Want::Real, *first)? {
        Lead::Digit => eight(bytes),
        Lead::Signed(_) => Err(Fault::Misspelt),
    }
}

// What is wanted, behind its blank.
fn item_after<'b>(want: Want, bytes: &'b [u8]) -> Result<(Item<'b>, usize), Fault>
    ensures { Finds bytes.now (bare want bytes.now) result }
{
    match want {
        Want::Number(kind) => number_after(kind, bytes),
        Want::Real => real_after(bytes),
        Want::Text(len) => text_of(len, bytes),
    }
}

// What is wanted, with its blank.
pub(crate) fn item_of<'b>(want: Want, bytes: &'b [u8]) -> Result<(Item<'b>, usize), Fault>
    ensures { Finds bytes.now (blanked (bare want) bytes.now) result }
{
    behind_blank(bytes, |behind| item_after(want, behind))
}
