// Respelling: a telegram read in one framing, and written canonically in another.
ghost use Rattle.std.specs.Prelude.{◌≡◌};
ghost use Rattle.framing.specs.Respell.{answer_of, measured, respelt, OneSpelling};

use crate::accepted::accept;
use crate::framing::{Framing, FullFraming};
use layout::telling::Telling;
use telegram::refusal::Refusal;

// Answers how long the output has to be: the length of the telegram's canonical spelling in the target.
pub fn respelt_length<F: Framing, G: FullFraming>(
    from: &F,
    to: &G,
    bytes: &[u8],
) -> Result<usize, Refusal>
    ensures { answer_of result ≡ measured (F.Meaning.reads from.now bytes.now) (G.FullFraming.spells to.now) }
{
    accept(from, bytes).map(|telegram| to.length(&telegram))
}

// Answers the length of what was written at the output's start. After a refusal the output is as it was.
pub fn respell<F: Framing, G: FullFraming>(
    from: &F,
    to: &G,
    bytes: &[u8],
    out: &mut [u8],
) -> Result<usize, Refusal>
    ensures answer { record { answer = answer_of result; output = out.new } ≡ respelt (F.Meaning.reads from.now bytes.now) (G.FullFraming.spells to.now) out.old }
    ensures unique { OneSpelling (G.Meaning.reads to.now) (G.FullFraming.spells to.now) }
{
    // A `?` here would move the telegram, which takes a call of `memcpy`; the archive for C needs none.
    match accept(from, bytes) {
        Ok(telegram) => to.write(&Telling::new(&telegram, telegram.parts()), out),
        Err(refusal) => Err(refusal),
    }
}
