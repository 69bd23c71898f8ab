// What a layout asks for, what is read, and where it stands.
ghost use Rattle.std.specs.Prelude.{◌≡◌};
ghost use Rattle.telegram.specs.Value.{value_of, number};

use crate::kind::Kind;

// What is asked for next: a number of a kind, a Real, or a text of so many bytes.
#[derive(Clone, Copy)]
pub enum Want {
    Number(Kind),
    Real,
    Text(usize),
}

// What is read: a number by the pattern of its full width, a Real by its pattern, or a text, which is a part of the input.
#[derive(Clone, Copy)]
pub enum Item<'a> {
    Number(Kind, u32),
    Real(u32),
    Text(&'a [u8]),
}

// A value with the place of its first byte in the whole input, and the place behind its last.
#[derive(Clone, Copy, Debug, PartialEq, Eq)]
pub struct Placed<T> {
    pub value: T,
    pub place: usize,
    pub end: usize,
}

impl Item<'_> {
    // The pattern of a number or a Real; a text says 0.
    pub fn number(self) -> u32
        ensures { result ≡ number (value_of self.entry) }
    {
        match self {
            Item::Number(_, v) | Item::Real(v) => v,
            Item::Text(_) => 0,
        }
    }
}
