// The envelope: 02, a body that has neither 02 nor 03, and 03.
ghost use Rattle.std.specs.Prelude.{◌≡◌, ℕ, ◌+◌, ◌<◌, ◌≤◌, length, IfSome};
ghost use Rattle.spelling.specs.Spell.{Opening};
ghost use Rattle.spelling.specs.Write.{enclosed};
ghost use Rattle.cola_a.specs.Envelope.{marked, mark, open_text, wrap_text};

use spelling::terms::Extent;
use telegram::refusal::{Reason, Refusal};

const START: u8 = 0x02;

const END: u8 = 0x03;

// Whether a byte belongs to the envelope alone.
fn is_mark(b: u8) -> bool
    ensures { result ≡ marked b }
{
    matches!(b, START | END)
}

// The place of the first byte that is 02 or 03.
fn first_mark(bytes: &[u8]) -> Option<usize>
    ensures first { result ≡ mark 0 bytes.now }
    ensures within { IfSome result (λ at. at < length bytes.now) }
{
    bytes.iter().position(|b| is_mark(*b))
}

// Where the body stands. The first byte is looked at first, then the last, then those between them.
pub fn open_text(bytes: &[u8]) -> Result<Extent, Refusal>
    ensures { Opening (open_text bytes.now) result }
{
    if bytes.first() != Some(&START) {
        return Err(Reason::Envelope.at(0));
    }
    let last = bytes.len() - 1;
    if bytes[last] != END {
        return Err(Reason::Envelope.at(last));
    }
    match first_mark(&bytes[1..last]) {
        Some(at) => Err(Reason::Envelope.at(1 + at)),
        None => Ok(Extent { from: 1, to: last }),
    }
}

// Puts the envelope around the body that stands behind the first byte, up to a place.
pub(crate) fn put_envelope(out: &mut [u8], to: usize)
    requires front { 1 ≤ to }
    requires room { to + 1 ≤ length out.old }
    ensures { out.new ≡ enclosed wrap_text out.old to }
{
    out[0] = START;
    out[to] = END;
}
