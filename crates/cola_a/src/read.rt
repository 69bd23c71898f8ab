// Reading in text.
ghost use Rattle.std.specs.Prelude.{◌≡◌};
ghost use Rattle.spelling.specs.Walk.{left};
ghost use Rattle.framing.specs.Read.{Reads, Keeps};
ghost use Rattle.cola_a.specs.Items.{find_text};
ghost use Rattle.cola_a.specs.Read.{reads_text};

use crate::letters::Letters;
use framed::framed::Framed;
use framing::accepted::read_in;
use framing::head::Head;
use telegram::refusal::Refusal;

// The text framing.
pub type ColaA = Framed<Letters>;

pub const COLA_A: ColaA = Framed { spelling: Letters };

// What bytes come to. Binary has a call of its own too: each promises by its framing's own definitions, and binary's promises more.
pub fn read<'b>(bytes: &'b [u8]) -> Result<Head<'b>, Refusal>
    ensures answer { Reads (left find_text) bytes.now (reads_text bytes.now) result }
    ensures keeps { Keeps bytes.now (reads_text bytes.now) }
{
    read_in(&COLA_A, bytes)
}
