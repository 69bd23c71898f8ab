// The framings that programs know, and how they are told: by a telegram's bytes, by their letter, or by their number.
#![tactic(auto)]

ghost use Rattle.std.specs.Prelude.{◌≡◌, ◌==◌, slice_index};
ghost use Rattle.known.specs.Known.{told, lettered, numbered};

use cola_a::read::{COLA_A, ColaA};
use cola_b::read::{COLA_B, ColaB};
use framing::choice::Choice;

// Text or binary.
pub type Known = Choice<ColaA, ColaB>;

const IN_TEXT: Known = Choice::First(COLA_A);

const IN_BINARY: Known = Choice::Second(COLA_B);

// The second byte of every binary telegram; of no telegram in text.
const BINARY_MARK: u8 = 0x02;

fn is_binary(bytes: &[u8]) -> bool
    ensures { result ≡ (slice_index bytes.now 1 == 2) }
{
    bytes.get(1) == Some(&BINARY_MARK)
}

// The framing of bytes: binary if the second of them is 02, else text.
pub fn told(bytes: &[u8]) -> Known
    ensures { result ≡ told bytes.now }
{
    if is_binary(bytes) { IN_BINARY } else { IN_TEXT }
}

// The framing of a letter, A or B.
pub fn lettered(word: &[u8]) -> Option<Known>
    ensures { result ≡ lettered word.now }
{
    match word {
        [b'A'] => Some(IN_TEXT),
        [b'B'] => Some(IN_BINARY),
        _ => None,
    }
}

// The framing of a number, by which C names it: 0 is text, 1 is binary.
pub fn numbered(number: usize) -> Option<Known>
    ensures { result ≡ numbered number }
{
    match number {
        0 => Some(IN_TEXT),
        1 => Some(IN_BINARY),
        _ => None,
    }
}
