// The calls of a viewer. A slice is, to C, a pointer and then a length. Trusted of the caller: no pointer is null, each points to so many bytes that hold values, and no byte of the output is one of the input or is touched by others during the call.
ghost use Rattle.std.specs.Prelude.{◌≡◌, ◌||◌};
ghost use Rattle.framing.specs.Respell.{answer_of};
ghost use Rattle.viewer.specs.Answer.{says_unknown, is_unknown, read_answer, write_answer, read_by, respelt_by};

use crate::answer::Answer;
use framing::accepted::accept;
use framing::framing::{Framing, Meaning};
use framing::respell::respell;
use known::numbered;
use telegram::refusal::Refusal;

// Reads bytes in a framing, and counts the items.
fn count<F: Framing>(framing: &F, bytes: &[u8]) -> Result<usize, Refusal>
    ensures { write_answer (answer_of result) ≡ read_answer (F.Meaning.reads framing.now bytes.now) }
{
    let telegram = accept(framing, bytes)?;
    Ok(telegram.items().count())
}

// Reads a telegram in the framing of a number.
#[unsafe(no_mangle)]
pub extern "C" fn poqhesti_read(framing: usize, bytes: &[u8]) -> Answer
    ensures answer { result ≡ read_by framing bytes.now }
    ensures unknown { says_unknown result.number ≡ is_unknown framing }
{
    match numbered(framing) {
        Some(known) => count(&known, bytes).into(),
        None => Answer::unknown(framing),
    }
}

// Respells a telegram from the framing of a number into that of another. The numbers are looked at before the bytes.
#[unsafe(no_mangle)]
pub extern "C" fn poqhesti_respell(from: usize, to: usize, bytes: &[u8], out: &mut [u8]) -> Answer
    ensures answer { record { answer = result; output = out.new } ≡ respelt_by from to bytes.now out.old }
    ensures unknown { says_unknown result.number ≡ (is_unknown from || is_unknown to) }
{
    let Some(source) = numbered(from) else {
        return Answer::unknown(from);
    };
    let Some(target) = numbered(to) else {
        return Answer::unknown(to);
    };
    respell(&source, &target, bytes, out).into()
}
