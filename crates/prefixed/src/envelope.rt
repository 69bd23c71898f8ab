// The envelope: the body's length in two bytes, and the body.
ghost use Rattle.std.specs.Prelude.{◌≡◌, ℕ, ◌+◌, ◌≤◌, length};
ghost use Rattle.spelling.specs.Spell.{Opening};
ghost use Rattle.spelling.specs.Write.{enclosed};
ghost use Rattle.prefixed.specs.Envelope.{open_prefixed, wrap_prefixed};

use spelling::terms::Extent;
use telegram::refusal::{Reason, Refusal};

// Where a body begins, behind its length.
pub const FRONT: usize = 2;

// The body that an envelope holds, or what is wrong with the envelope.
pub fn open(input: &[u8]) -> Result<Extent, Refusal>
    ensures { Opening (open_prefixed input.now) result }
{
    let len = input.len();
    let Some(stated) = input.first_chunk() else {
        return Err(Reason::Envelope.at(len));
    };
    if usize::from(u16::from_be_bytes(*stated)) != len - FRONT {
        return Err(Reason::Envelope.at(0));
    }
    Ok(Extent {
        from: FRONT,
        to: len,
    })
}

// Puts the length before the body that ends at a place; its conditions are those of the terms.
pub(crate) fn put_length(out: &mut [u8], to: usize)
    requires front { 2 ≤ to }
    requires room { to ≤ length out.old }
    requires short { to ≤ 65536 }
    ensures { out.new ≡ enclosed wrap_prefixed out.old to }
{
    // Shown to fit: a body is shorter than an input may be long.
    let length = (to - FRONT) as u16;
    out[..FRONT].copy_from_slice(&length.to_be_bytes());
}
