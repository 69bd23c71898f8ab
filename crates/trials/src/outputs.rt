// What respelling leaves in an output.
use crate::build::Build;
use crate::judge::Verdict;
use crate::refused::Case;
use cola_a::read::COLA_A;
use cola_b::read::COLA_B;
use framing::framing::{Framing, FullFraming};
use framing::respell::{respell, respelt_length};
use notation::decode;
use prefixed::prefixed::PREFIXED;
use std::alloc::{AllocError, Global};
use telegram::refusal::Reason;

// What an output holds everywhere before it is written to.
const OLD: u8 = 0xA5;

// An output of so many bytes that begins with these.
fn output(heap: Global, begin: &[u8], room: usize) -> Result<Vec<u8>, AllocError> {
    let mut bytes = begin.to_vec(heap)?;
    bytes.resize(room, OLD)?;
    Ok(bytes)
}

// A way from one framing to another, with the heap that its outputs lie in.
#[derive_where(Clone, Copy)]
pub struct Way<'f, F, G> {
    heap: Global,
    from: &'f F,
    to: &'f G,
}

impl<'f, F: Framing, G: FullFraming> Way<'f, F, G> {
    pub fn new(heap: Global, from: &'f F, to: &'f G) -> Self {
        Way { heap, from, to }
    }

    // Whether respelling into an output of so many bytes answers so, and leaves these bytes and behind them what stood there.
    fn leaves(
        self,
        bytes: &[u8],
        room: usize,
        said: Verdict,
        written: &[u8],
    ) -> Result<bool, AllocError> {
        let wanted = output(self.heap, written, room)?;
        let mut out = output(self.heap, b"", room)?;
        let answer = respell(self.from, self.to, bytes, out.as_mut_slice());
        Ok(answer == said && out == wanted)
    }

    // Whether bytes become others, whose length is told before: in an output of exactly their length, in one that is longer by three, and not in one that is shorter by one.
    pub fn becomes(self, bytes: &[u8], wanted: &[u8]) -> Result<bool, AllocError> {
        let length = wanted.len();
        let longer = length.saturating_add(3);
        let shorter = length.saturating_sub(1);
        let asked = Err(Reason::Room.at(length));
        Ok(
            respelt_length(self.from, self.to, bytes) == Ok(length)
                && self.leaves(bytes, length, Ok(length), wanted)?
                && self.leaves(bytes, longer, Ok(length), wanted)?
                && self.leaves(bytes, shorter, asked, b"")?,
        )
    }

    // Whether an input that a text stands for becomes another.
    pub fn turns(self, input: &str, wanted: &str) -> Result<bool, AllocError> {
        let bytes = decode(self.heap, input.as_bytes())?;
        let written = decode(self.heap, wanted.as_bytes())?;
        self.becomes(bytes.as_slice(), written.as_slice())
    }

    // Whether the input of each case is refused as the case says, and leaves an output as it was, however short it is.
    pub fn are_refused(self, cases: &[Case]) -> Result<bool, AllocError> {
        for (input, reason, place) in cases {
            let input = decode(self.heap, input.as_bytes())?;
            let said = Err(reason.at(*place));
            for room in [80, 0] {
                if !self.leaves(input.as_slice(), room, said, b"")? {
                    return Ok(false);
                }
            }
        }
        Ok(true)
    }
}

// The canonical spellings of one telegram: in text, in binary, and in binary behind a length alone.
#[derive(Drop)]
pub struct Spellings {
    pub text: Vec<u8>,
    pub binary: Vec<u8>,
    pub prefixed: Vec<u8>,
}

// The parts of a text, by their numbers: the canonical body of a telegram, or a piece of it, in text and in binary; then the telegram as two inputs.
#[derive(Clone, Copy)]
enum Part {
    Letters = 0,
    Octets = 1,
    InputInText = 2,
    InputInBinary = 3,
}

// The bytes of one part of a text. A `#` divides the parts.
fn bytes_of(heap: Global, text: &str, part: Part) -> Result<Vec<u8>, AllocError> {
    let piece = text.split('#').nth(part as usize).unwrap_or("");
    decode(heap, piece.as_bytes())
}

// One part of each of some texts, one behind the other.
fn joined(heap: Global, texts: &[&str], part: Part) -> Result<Vec<u8>, AllocError> {
    let mut bytes = Vec::new(heap);
    for text in texts {
        bytes.extend_from_slice(bytes_of(heap, text, part)?.as_slice())?;
    }
    Ok(bytes)
}

// The spellings of a telegram whose body is these pieces one behind the other, each in text and, behind a `#`, in binary.
pub fn spell(heap: Global, pieces: &[&str]) -> Result<Spellings, AllocError> {
    let letters = joined(heap, pieces, Part::Letters)?;
    let octets = joined(heap, pieces, Part::Octets)?;
    Ok(Spellings {
        text: COLA_A.telegram(heap, &[letters.as_slice()])?,
        binary: COLA_B.telegram(heap, &[octets.as_slice()])?,
        prefixed: PREFIXED.telegram(heap, &[octets.as_slice()])?,
    })
}

impl Spellings {
    // Whether bytes of a framing become each of them.
    pub fn come_of<F: Framing>(
        &self,
        heap: Global,
        from: &F,
        bytes: &[u8],
    ) -> Result<bool, AllocError> {
        Ok(
            Way::new(heap, from, &COLA_A).becomes(bytes, self.text.as_slice())?
                && Way::new(heap, from, &COLA_B).becomes(bytes, self.binary.as_slice())?
                && Way::new(heap, from, &PREFIXED).becomes(bytes, self.prefixed.as_slice())?,
        )
    }

    // Whether each becomes each, itself included.
    pub fn agree(&self, heap: Global) -> Result<bool, AllocError> {
        Ok(
            self.come_of(heap, &COLA_A, self.text.as_slice())?
                && self.come_of(heap, &COLA_B, self.binary.as_slice())?
                && self.come_of(heap, &PREFIXED, self.prefixed.as_slice())?,
        )
    }
}

// Whether a telegram's canonical spellings come of two others, one in text and one in binary, that stand behind them.
pub fn settles<F: Framing, G: Framing>(
    heap: Global,
    text: &F,
    binary: &G,
    case: &str,
) -> Result<bool, AllocError> {
    let telegram = spell(heap, &[case])?;
    let letters = bytes_of(heap, case, Part::InputInText)?;
    let octets = bytes_of(heap, case, Part::InputInBinary)?;
    Ok(
        telegram.come_of(heap, text, letters.as_slice())?
            && telegram.come_of(heap, binary, octets.as_slice())?,
    )
}
