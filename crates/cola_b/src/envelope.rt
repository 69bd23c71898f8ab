// The envelope: a header, the body's length in four bytes, the body, and one byte of checksum.
ghost use Rattle.std.specs.Prelude.{◌≡◌, ℕ, ◌+◌, ◌-◌, ◌≤◌, length, take, drop};
ghost use Rattle.spelling.specs.Spell.{Opening};
ghost use Rattle.spelling.specs.Write.{enclosed};
ghost use Rattle.cola_b.specs.Envelope.{alike, checksum, open_binary, wrap_binary};

use crate::items::four;
use spelling::terms::Extent;
use telegram::refusal::{Reason, Refusal};

// What every telegram begins with.
const HEADER: [u8; 4] = *b"\x02\x02\x02\x02";

// Where a body begins, behind the header and its length.
pub const FRONT: usize = 8;

// How many bytes two byte strings have in common before the first that differs.
fn alike(a: &[u8], b: &[u8]) -> usize
    ensures { result ≡ alike a.now b.now }
{
    a.iter().zip(b).take_while(|(x, y)| x == y).count()
}

// The exclusive or of all bytes.
pub fn checksum(body: &[u8]) -> u8
    ensures { result ≡ checksum body.now }
{
    body.iter().fold(0, |sum, b| sum ^ *b)
}

// The body that an envelope holds, or what is wrong with the envelope.
pub fn open(input: &[u8]) -> Result<Extent, Refusal>
    ensures { Opening (open_binary input.now) result }
{
    let len = input.len();
    if len < FRONT + 1 {
        return Err(Reason::Envelope.at(len));
    }
    let place = alike(&HEADER, input);
    if place < HEADER.len() {
        return Err(Reason::Envelope.at(place));
    }
    let end = len - 1;
    // 32 bits always fit, and `usize` has no `From` for them.
    match four(&input[HEADER.len()..]) {
        Some(stated) if stated as usize == end - FRONT => {}
        _ => return Err(Reason::Envelope.at(HEADER.len())),
    }
    if checksum(&input[FRONT..end]) != input[end] {
        return Err(Reason::Checksum.at(end));
    }
    Ok(Extent {
        from: FRONT,
        to: end,
    })
}

// The body that stands behind the front, up to a place.
fn body_in(out: &[u8], to: usize) -> &[u8]
    requires front { 8 ≤ to }
    requires room { to ≤ length out.now }
    ensures { result.now ≡ take (to - 8) (drop 8 out.now) }
{
    &out[FRONT..to]
}

// How long a body is, as its envelope states it.
fn stated_length(body: &[u8]) -> u32
    requires { length body.now ≤ 65536 }
    ensures { result ≡ length body.now }
{
    // Shown to fit: a body is no longer than an input may be.
    body.len() as u32
}

// Puts the envelope around the body that stands behind the front, up to a place; its conditions are those of the terms.
pub(crate) fn put_envelope(out: &mut [u8], to: usize)
    requires front { 8 ≤ to }
    requires room { to + 1 ≤ length out.old }
    requires short { to ≤ 65536 }
    ensures { out.new ≡ enclosed wrap_binary out.old to }
{
    let body = body_in(out, to);
    let length = stated_length(body);
    let sum = checksum(body);
    out[..HEADER.len()].copy_from_slice(&HEADER);
    out[HEADER.len()..FRONT].copy_from_slice(&length.to_be_bytes());
    out[to] = sum;
}
